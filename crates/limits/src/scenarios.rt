// What the calls answer at the edges of each limit.
use crate::notes::Notes;
use faults::Fault;
use modules::query::{Empty, Module};
use modules::rows::{Pair, PairTable};
use semantics::Side::{Absent, Present};
use semantics::{Head, Literal, Side};
use sheet::paper::{Sheet, Step};
use std::alloc::Global;

const ACCEPTED: u32 = 255;

const NO_MORE: u32 = 254;

fn literal(atom: u16, side: Side) -> Literal {
    Literal { atom, side }
}

fn row(one: u16, other: u16, to: u16) -> Pair {
    Pair { one, other, to }
}

// The number of the fault, or that the call was accepted.
fn number<T: Drop>(answer: Result<T, Fault>) -> u32 {
    match answer {
        Ok(_) => ACCEPTED,
        Err(fault) => u32::from(fault.number()),
    }
}

// Its place, or the same.
fn place<T: Drop>(answer: Result<T, Fault>) -> u32 {
    match answer {
        Ok(_) => ACCEPTED,
        Err(fault) => u32::from(fault.place()),
    }
}

fn step<M: Module>(sheet: &mut Sheet<M>, plan: &mut [u8]) -> u32 {
    match sheet.next(plan) {
        Ok(Step::NoMore) => NO_MORE,
        answer => number(answer),
    }
}

// Notes held, all, brave and cautious.
fn note_told<M: Module>(notes: &mut Notes, sheet: &Sheet<M>, atom: u16) {
    if let Ok(told) = sheet.tell(atom) {
        notes.add(told.held);
        notes.add(told.all);
        notes.add(u32::from(told.brave));
        notes.add(u32::from(told.cautious));
    }
}

fn note_plan(notes: &mut Notes, plan: &[u8]) {
    for byte in plan {
        notes.add(u32::from(*byte));
    }
}

pub(crate) fn levels(heap: Global) -> Notes {
    let mut notes = Notes::new();
    let mut levels = [15u8; 257];
    let mut sheet = Sheet::blank(heap, Empty);
    notes.add(number(sheet.lay(&[])));
    notes.add(number(sheet.lay(&levels)));
    notes.add(number(sheet.lay(&levels[0..256])));
    levels[200] = 16;
    levels[201] = 255;
    notes.add(number(sheet.lay(&levels[0..256])));
    notes.add(place(sheet.lay(&levels[0..256])));
    notes
}

pub(crate) fn lines(heap: Global) -> Notes {
    let mut notes = Notes::new();
    let mut sheet = Sheet::blank(heap, Empty);
    let _ = sheet.lay(&[0]);
    let last = (0..511).map(|_| sheet.enter(Head::Atom(0), &[])).last();
    notes.add(last.map_or(0, number));
    notes.add(number(sheet.enter(Head::Bar, &[literal(0, Absent)])));
    notes.add(number(sheet.enter(Head::Atom(0), &[])));
    notes.add(number(sheet.enter(Head::Atom(9), &[])));
    let _ = sheet.lay(&[0]);
    notes.add(number(sheet.enter(Head::Atom(0), &[])));
    notes
}

pub(crate) fn bodies(heap: Global) -> Notes {
    let mut notes = Notes::new();
    let body = [literal(0, Present); 9];
    let mut sheet = Sheet::blank(heap, Empty);
    let _ = sheet.lay(&[0]);
    notes.add(number(sheet.enter(Head::Atom(0), &body[0..8])));
    notes.add(number(sheet.enter(Head::Atom(0), &body)));
    notes.add(number(sheet.enter(Head::Bar, &body)));
    notes
}

pub(crate) fn literals(heap: Global) -> Notes {
    let mut notes = Notes::new();
    let stray = [literal(0, Present), literal(2, Present)];
    let high = [literal(0, Present), literal(1, Absent), literal(2, Present)];
    let mut sheet = Sheet::blank(heap, Empty);
    let _ = sheet.lay(&[0, 1]);
    notes.add(number(sheet.enter(Head::Atom(2), &stray)));
    notes.add(number(sheet.enter(Head::Atom(0), &stray)));
    notes.add(place(sheet.enter(Head::Atom(0), &stray)));
    notes.add(number(sheet.enter(Head::Atom(0), &high)));
    notes.add(place(sheet.enter(Head::Atom(0), &high)));
    notes.add(number(sheet.enter(Head::Bar, &high[0..2])));
    notes.add(number(sheet.enter(Head::Atom(1), &high[0..2])));
    notes
}

pub(crate) fn rows(heap: Global) -> Notes {
    let mut notes = Notes::new();
    let mut table = PairTable::new(heap);
    let last = (0..64).map(|_| table.push_row(row(0, 0, 1))).last();
    notes.add(last.map_or(0, number));
    notes.add(number(table.push_row(row(0, 0, 2))));
    let mut sheet = Sheet::blank(heap, table);
    notes.add(number(sheet.lay(&[0, 1])));
    notes
}

pub(crate) fn outputs(heap: Global) -> Notes {
    let mut notes = Notes::new();
    let mut table = PairTable::new(heap);
    let _ = table.push_row(row(0, 0, 2));
    let _ = table.push_row(row(1, 0, 2));
    let _ = table.push_row(row(0, 9, 3));
    let mut sheet = Sheet::blank(heap, table);
    notes.add(number(sheet.lay(&[0, 0, 1])));
    notes.add(place(sheet.lay(&[0, 0, 1])));
    notes.add(number(sheet.lay(&[0, 1, 1, 1])));
    notes.add(place(sheet.lay(&[0, 1, 1, 1])));
    notes.add(number(sheet.lay(&[0, 0, 1, 1])));
    notes
}

pub(crate) fn never_laid(heap: Global) -> Notes {
    let mut notes = Notes::new();
    let mut sheet = Sheet::blank(heap, Empty);
    notes.add(number(sheet.enter(Head::Atom(9), &[])));
    notes.add(step(&mut sheet, &mut [7]));
    notes.add(number(sheet.tell(9)));
    notes.add(number(sheet.lay(&[16])));
    notes.add(step(&mut sheet, &mut []));
    notes
}

// Two atoms, of which each plan has one.
fn even_pair(heap: Global) -> Sheet<Empty> {
    let mut sheet = Sheet::blank(heap, Empty);
    let _ = sheet.lay(&[0, 0]);
    let _ = sheet.enter(Head::Atom(0), &[literal(1, Absent)]);
    let _ = sheet.enter(Head::Atom(1), &[literal(0, Absent)]);
    sheet
}

pub(crate) fn listing(heap: Global) -> Notes {
    let mut notes = Notes::new();
    let mut plan = [7u8; 2];
    let mut sheet = even_pair(heap);
    notes.add(step(&mut sheet, &mut [7]));
    notes.add(number(sheet.tell(2)));
    notes.add(number(sheet.tell(0)));
    step(&mut sheet, &mut plan);
    note_plan(&mut notes, &plan);
    step(&mut sheet, &mut plan);
    note_plan(&mut notes, &plan);
    notes.add(step(&mut sheet, &mut plan));
    notes.add(step(&mut sheet, &mut plan));
    note_plan(&mut notes, &plan);
    note_told(&mut notes, &sheet, 0);
    notes
}

pub(crate) fn entry(heap: Global) -> Notes {
    let mut notes = Notes::new();
    let mut plan = [7u8; 2];
    let mut sheet = Sheet::blank(heap, Empty);
    let _ = sheet.lay(&[0, 0]);
    let _ = sheet.enter(Head::Atom(1), &[literal(0, Absent)]);
    notes.add(step(&mut sheet, &mut plan));
    notes.add(step(&mut sheet, &mut plan));
    note_told(&mut notes, &sheet, 1);
    notes.add(number(sheet.enter(Head::Atom(0), &[])));
    notes.add(number(sheet.tell(1)));
    step(&mut sheet, &mut plan);
    note_plan(&mut notes, &plan);
    notes.add(step(&mut sheet, &mut plan));
    note_told(&mut notes, &sheet, 1);
    notes
}

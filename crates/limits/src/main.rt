// The limits of a sheet, at their edges and through its calls. Each scenario notes what its calls answered, and a line is
// printed for it: for a refused call the fault's number, for an accepted one 255, and 254 where `next` says no more.

#![tactic(auto)]

mod notes;
mod scenarios;

use notes::Notes;
use std::alloc::Global;
use std::io;

fn print(rt: &HostRuntime, label: &str, notes: &Notes) -> io::Result<()> {
    print!(rt; "{label}:")?;
    for number in notes.numbers() {
        print!(rt; " {number}")?;
    }
    println!(rt; "")
}

fn main(rt: HostRuntime) -> io::Result<()> {
    let heap: Global = rt.alloc();
    let noted = [
        (
            "levels 0, 257, 256, of 16, its place",
            scenarios::levels(heap),
        ),
        (
            "lines 511, 512 a bar, 513, 513 before its head, laid again",
            scenarios::lines(heap),
        ),
        ("body 8, 9, a bar of 9", scenarios::bodies(heap)),
        (
            "head past, atom past, its place, level above, its place, free in a bar, equal",
            scenarios::literals(heap),
        ),
        ("rows 64, 65, laid", scenarios::rows(heap)),
        (
            "output past, its place, reads its level, its place, laid",
            scenarios::outputs(heap),
        ),
        (
            "never laid: enter, next, tell, lay of 16, next",
            scenarios::never_laid(heap),
        ),
        (
            "listing: wrong buffer, tell past, tell early, two plans, no more twice, told",
            scenarios::listing(heap),
        ),
        (
            "entry: plan, no more, told, entered, tell early, plan, no more, told",
            scenarios::entry(heap),
        ),
    ];
    for (label, notes) in &noted {
        print(&rt, label, notes)?;
    }
    Ok(())
}

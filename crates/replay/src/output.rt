// What is written: a line for each study, and one for all.
use super::study::Outcome;
use differ::Seen;
use std::io;

pub fn say_missing(rt: &HostRuntime, at: u32) -> io::Result<()> {
    println!(rt; "study {at}: no study")
}

pub fn say(rt: &HostRuntime, at: u32, o: Outcome) -> io::Result<()> {
    if let Some(f) = o.refused {
        let number = f.number();
        return println!(rt; "study {at}: refused {number}");
    }
    print!(rt;
        "study {at}: {} x {} x {}, {} steps, ",
        o.nx, o.ny, o.nz, o.steps
    )?;
    say_seen(rt, o.seen)
}

pub fn say_all(rt: &HostRuntime, count: u32, seen: Seen) -> io::Result<()> {
    print!(rt; "{count} studies, ")?;
    say_seen(rt, seen)
}

fn say_seen(rt: &HostRuntime, s: Seen) -> io::Result<()> {
    println!(rt;
        "{} numbers, {} apart, {} changes seen",
        s.numbers, s.apart, s.seen
    )
}

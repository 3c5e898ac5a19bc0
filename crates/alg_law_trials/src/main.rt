//! Tries each law at small numbers: what is asked of ℕ at natural numbers, the other laws at integers, and those that
//! ask for a group or a field alone at remainders by 7. A line for each law tells where it holds.
//!
//! A law is tried where each of its instances has a value, and holds where the premises of one instance hold, and the
//! conclusion does wherever they do.
#![tactic(auto)]

mod instances;
mod values;

use alg_law::{Class, Law, Need, laws};
use instances::{Reading, Seen, look};
use std::alloc::Global;
use std::io;
use std::io::Print;

fn main(rt: HostRuntime) -> io::Result<()> {
    for group in laws() {
        try_group(&rt, rt.alloc(), group)?;
    }
    Ok(())
}

fn try_group(rt: &impl Print, alloc: Global, group: &[Law]) -> io::Result<()> {
    for law in group {
        let found = told(look(alloc, law, reading_of(law.needs))?);
        let place = place_of(reading_of(law.needs));
        println!(rt; "{}: {found} {place}", law.name)?;
    }
    Ok(())
}

// What the letters of a law with these needs are read as.
fn reading_of(needs: &[Need]) -> Reading {
    match needs {
        [Need::IsNat] => Reading::Naturals,
        [Need::Class(Class::Group)] => Reading::Units,
        [Need::Class(Class::Field)] => Reading::Remainders,
        _ => Reading::Integers,
    }
}

fn place_of(reading: Reading) -> &'static str {
    match reading {
        Reading::Integers => "at integers",
        Reading::Naturals => "at natural numbers",
        Reading::Remainders => "in the field of remainders by 7",
        Reading::Units => "in the group of remainders by 7",
    }
}

fn told(seen: Seen) -> &'static str {
    match seen {
        Seen { is_read: false, .. } => "not tried",
        Seen { is_false: true, .. } => "false",
        Seen { is_met: true, .. } => "holds",
        _ => "has no instance",
    }
}

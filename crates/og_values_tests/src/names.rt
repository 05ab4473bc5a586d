use crate::equal::check_equal;
use og_names::Names;
use std::alloc::Global;
use std::process::Abort;

/// Adds the name, which isn't there before and is there after.
fn add(rt: &impl Abort, alloc: Global, names: &mut Names<u32>, name: &str, number: u32) {
    check_equal(rt, names.get(name).copied(), None);
    let place = names.len();
    if !names.has(name) {
        check_equal(rt, names.insert(alloc, name, number).is_ok(), true);
    }
    check_equal(rt, names.place(name), Some(place));
}

/// The table of these names, each with its number.
fn table(rt: &impl Abort, alloc: Global, rows: &[(&str, u32)]) -> Names<u32> {
    let mut names = Names::new(alloc);
    'rows: for (name, number) in rows {
        add(rt, alloc, &mut names, *name, *number);
    }
    names
}

fn check_found(rt: &impl Abort, names: &Names<u32>, rows: &[(&str, u32)]) {
    'rows: for (name, number) in rows {
        check_equal(rt, names.get(*name).copied(), Some(*number));
    }
}

#[test]
fn names_are_found_by_all_their_bytes(rt: HostRuntime) {
    let rows: [(&str, u32); 5] = [
        ("bidder", 1),
        ("bidders", 2),
        ("bidder1", 3),
        ("é", 4),
        ("", 5),
    ];
    let names = table(&rt, rt.alloc(), &rows);
    check_equal(&rt, names.len(), 5);
    check_found(&rt, &names, &rows);
    check_equal(&rt, names.get("bidde").copied(), None);
    check_equal(&rt, names.has("e"), false);
}

//! Mirrors, and what they answer step by step.

use crate::entries::put_entries;
use crate::row::Row;
use crate::sessions::dump_in;
use nl_attr::{Order, Tally};
use nl_dump::match_table;
use nl_mirror::{Effect, Mirror, Short, Update};
use nl_route::{Family, Head, Object};
use nl_table::Seed;

/// What a new mirror answers to each step.
pub(crate) fn answer(row: &mut Row<'_>) {
    let (limits, waiting) = (row.limits(), row.int::<u32>());
    let Ok(mut mirror) = Mirror::new(row.alloc, limits, waiting, Seed::KNOWN) else {
        return row.run_out();
    };
    for _ in 0..row.number() {
        step(row, &mut mirror);
    }
}

fn step(row: &mut Row<'_>, mirror: &mut Mirror) {
    match row.number() {
        0 => feed(row, mirror),
        1 => begin(row, mirror),
        2 => mirror.lost(),
        3 => put_stale(row, mirror),
        4 => match_table!(row.family(), mirror, table => put_entries(row, table)),
        _ => row.fail(),
    }
}

fn begin(row: &mut Row<'_>, mirror: &mut Mirror) {
    match mirror.begin(dump_in(row)) {
        Ok(()) => row.put(0),
        Err(error) => row.refuse(1, error),
    }
}

/// Feeds a datagram. The visits, and what each of its messages makes of the tables.
fn feed(row: &mut Row<'_>, mirror: &mut Mirror) {
    let order = mirror.links().order();
    let Tally { result, visits } = mirror.feed(row.bytes());
    row.put(visits);
    match result {
        Ok(answers) => {
            row.put_all(&[0, answers.len() as u64]);
            for answer in answers {
                put_answer(row, order, answer);
            }
        }
        Err(error) => row.refuse(error.code(), error),
    }
}

/// Answers what a message makes of the table of a family, or what there was too little of.
fn put_answer(row: &mut Row<'_>, order: Order, answer: Result<Update, Short>) {
    match answer {
        Ok(Update::Link(effect)) => put_effect(row, order, 0, effect),
        Ok(Update::Addr(effect)) => put_effect(row, order, 1, effect),
        Ok(Update::Route(effect)) => put_effect(row, order, 2, effect),
        Ok(Update::Neigh(effect)) => put_effect(row, order, 3, effect),
        Ok(Update::Rule(effect)) => put_effect(row, order, 4, effect),
        Ok(Update::Other) => row.put(5),
        Err(short) => row.refuse(6, short),
    }
}

/// Answers what a message makes of a table, and the body of the entry that was there before.
fn put_effect<H: Head>(row: &mut Row<'_>, order: Order, family: u64, effect: Effect<Object<H>>) {
    match effect {
        Effect::Added(place) => row.put_all(&[family, 0, place as u64]),
        Effect::Changed(place, before) => {
            row.put_all(&[family, 1, place as u64]);
            row.put_object(&before, order);
        }
        Effect::Removed(place, before) => {
            row.put_all(&[family, 2, place as u64]);
            row.put_object(&before, order);
        }
        Effect::Waits => row.put_all(&[family, 3]),
        Effect::Nothing => row.put_all(&[family, 4]),
    }
}

/// Answers of each kind how many entries its table has, and why it is stale, if it is; and whether
/// a dump of it runs.
fn put_stale(row: &mut Row<'_>, mirror: &Mirror) {
    for kind in Family::ALL {
        row.put(match_table!(kind, mirror, table => table.len()) as u64);
        row.put_found(mirror.stale(kind).map(|why| why.name().as_bytes()));
        row.put(mirror.dump(kind).is_some() as u64);
    }
}

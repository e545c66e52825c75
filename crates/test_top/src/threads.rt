//! Runs by threads through the command, of which each order of their events is right.

use crate::fixture::*;
use crate::listening::{ACTIVE, Habits};
use crate::runs::{heard, stores_in};
use std::process::Abort;
use std::test::Fail;

/// Three threads share a loop, and the first one prints who had which iteration.
const STATIC_LOOP: &[u8] = b"#include <stdio.h>
int o[7];
int main(void) {
int i;
#pragma omp parallel for num_threads(3)
for (i = 0; i < 7; i++) o[i] = omp_get_thread_num();
for (i = 0; i < 7; i++) printf(\"%d\", o[i]);
printf(\"\\n\");
return 0;
}
";

/// Words of a run by three threads.
const RUN_ON_THREE: &[&str] = &["run", "--threads", "3"];

/// It registers the callbacks of the profile, and answers 0.
const DECLINING: Habits = Habits {
    answer: 0,
    ..ACTIVE
};

/// Guests that register all callbacks of the profile and answer 0 hear nothing, store nothing, and aren't finished. The program prints
/// what it prints without them.
#[test]
fn guests_that_decline_hear_nothing_of_threads(rt: HostRuntime) -> Result<(), Fail> {
    let told = tell_guests(&rt, RUN_ON_THREE, STATIC_LOOP, 3, DECLINING, &[])?;
    have_declined(&rt, &told);
    Ok(())
}

/// The program printed what it prints, and the guests heard and stored nothing. The first one was started.
fn have_declined(rt: &impl Abort, told: &Told) {
    assert!(rt; told.is_done());
    assert!(rt; told.out.bytes() == b"0001112\n".as_slice());
    let ran = ran_in(rt, told);
    assert!(rt; ran.mask == 0);
    assert!(rt; stores_in(ran) == 0);
    heard(rt, ran, &[[0, 1, 0], [0, 0, 0], [0, 0, 0]]);
}

/// A listing by threads has a line for each event, in the order of their positions.
#[test]
fn a_listing_by_threads_is_in_order(rt: HostRuntime) -> Result<(), Fail> {
    let told = tell_text(&rt, &["list", "--threads", "2"], REGION_OF_TWO)?;
    is_in_order(&rt, &told);
    Ok(())
}

/// There are twenty lines, in the order of their positions.
fn is_in_order(rt: &impl Abort, told: &Told) {
    assert!(rt; told.is_done());
    let text = text_of(rt, told.out.bytes());
    assert!(rt; count_rising(text) == Some(20));
}

/// How many lines there are, where each begins with a greater number than those before it.
fn count_rising(text: &str) -> Option<usize> {
    let mut least = 0_u32;
    let mut count = 0_usize;
    for line in text.lines() {
        let (first, _rest) = line.split_once(' ')?;
        let number: u32 = first.parse().ok()?;
        if number < least {
            return None;
        }
        least = number.saturating_add(1);
        count = count.saturating_add(1);
    }
    Some(count)
}

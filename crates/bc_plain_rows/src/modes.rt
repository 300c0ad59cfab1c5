//! Streaks and paths beside the plain ones, at random.
use crate::random::next;
use bc_mode::{Mode, Request, Streaks};
use bc_plain::mode::{decide, fills, streak};
use std::test::Fail;

// A request of one of the workers 1, 2, 3 and 16.
fn request_of(random: u64) -> Request {
    let worker = match random / 65536 % 4 {
        0 => 16,
        worker => worker as u8,
    };
    Request {
        worker,
        first: random / 1024 % 4,
        count: (random / 256 % 3) as u32,
    }
}

#[test]
fn streaks_beside_a_list_of_requests(rt: HostRuntime) -> Result<(), Fail> {
    let mut random = 1;
    for _round in 0..20 {
        let mut streaks = Streaks::new();
        let mut earlier: Vec<Request> = Vec::new(rt.alloc());
        for _step in 0..200 {
            random = next(random);
            let request = request_of(random);
            let plain = streak(&earlier, &request);
            if 1 <= request.worker && request.worker <= 16 && request.first < 4 {
                assert_eq!(rt; streaks.next(request), plain);
                earlier.push(request)?;
            }
        }
    }
    Ok(())
}

#[test]
fn paths_beside_the_rules(rt: HostRuntime) -> Result<(), Fail> {
    for mode in [
        Mode::Writethrough,
        Mode::Writeback,
        Mode::Writearound,
        Mode::None,
    ] {
        for dirty in [false, true] {
            for (streak, cutoff) in [(0, 0), (7, 0), (7, 8), (8, 8), (9, 8), (u64::MAX, u64::MAX)] {
                let path = bc_mode::decide(mode, dirty, streak, cutoff);
                assert!(rt; decide(mode, dirty, streak, cutoff) == Some(path));
                let fill = bc_mode::fills(mode, streak, cutoff);
                assert_eq!(rt; fills(mode, streak, cutoff), fill);
            }
        }
    }
    Ok(())
}

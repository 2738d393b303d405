//! The generated protocol of three levels, whose number of live nodes is known from its definition, searched with enough
//! memory; and a budget that does not suffice, from which the search goes on to the same end.

ghost use Rattle.std.specs.Prelude.{◌≡◌};

use crate::{Ended, SearchLog, check_one, go_on};
use cub_proto::Protocol;
use cube_core::Budget;
use sample_gen::sample;
use std::alloc::Global;
use std::process::Abort;
use std::test::Fail;

#[test]
fn three_levels_end_with_five_live_cubes(rt: HostRuntime) -> Result<(), Fail> {
    let protocol = sample(rt.alloc(), 3)?;
    let budget = Budget {
        cubes: 100,
        width: 8,
    };
    match check_one(rt.alloc(), &protocol, budget)? {
        Ended::Safe(log) => {
            let live = log
                .nodes()
                .iter()
                .filter(|node| node.fate.is_live())
                .count();
            assert_eq!(rt; live, 5);
        }
        _ => assert!(rt; false),
    }
    Ok(())
}

fn is_full(ended: &Ended) -> bool {
    match ended {
        Ended::Full(_log) => true,
        _ => false,
    }
}

fn stays_full(
    rt: &impl Abort,
    alloc: Global,
    protocol: &Protocol,
    log: SearchLog,
) -> Result<(), Fail>
    requires { protocol.now ≡ log.protocol }
{
    match go_on(alloc, protocol, log) {
        Ok(ended) => {
            let full = is_full(&ended);
            assert!(rt; full);
        }
        Err(_lacking) => assert!(rt; false),
    }
    Ok(())
}

#[test]
fn one_cube_is_not_enough(rt: HostRuntime) -> Result<(), Fail> {
    let protocol = sample(rt.alloc(), 3)?;
    let budget = Budget { cubes: 1, width: 8 };
    match check_one(rt.alloc(), &protocol, budget)? {
        Ended::Full(log) => stays_full(&rt, rt.alloc(), &protocol, log),
        _ => {
            assert!(rt; false);
            Ok(())
        }
    }
}

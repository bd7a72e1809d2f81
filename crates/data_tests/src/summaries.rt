//! Summaries of multi, whose elements are told, and of bloom, and what values may match.

ghost use Rattle.std.specs.Prelude.{◌≡◌, IfOk};
ghost use Rattle.opclass_multi.specs.Kept.{IsSummary};
ghost use Rattle.opclass_bloom.specs.Includes.{HasWords};

use block_model::{Cond, Net, NoMemory, Op, Value};
use opclass_api::{OpClass, may_match};
use opclass_bloom::Bloom;
use opclass_minmax::MinMax;
use opclass_multi::{Element, Multi, Summary};
use std::alloc::Global;

/// The summary of the numbers, added one after the other.
fn added(class: &Multi, alloc: Global, numbers: &[i64]) -> Result<Summary, NoMemory>
    ensures { IfOk result (IsSummary class.now) }
{
    let mut summary = class.empty(alloc)?;
    'numbers: for number in numbers {
        class.add(&mut summary, &Value::Int(*number));
    }
    Ok(summary)
}

/// Numbers in the order in which they are added, numbers of a second summary that is united with theirs, and the elements at
/// limit 8.
type Multis = (&'static [i64], &'static [i64], &'static [Element]);

const MULTIS: [Multis; 3] = [
    // Of nine points those with the least gap are merged, the lower ones where two gaps are the least.
    (
        &[0, 10, 30, 500, 1000, 1500, 2000, 2020, 3000],
        &[],
        &[
            Element {
                least: 0,
                greatest: 30,
            },
            Element {
                least: 500,
                greatest: 500,
            },
            Element {
                least: 1000,
                greatest: 1000,
            },
            Element {
                least: 1500,
                greatest: 1500,
            },
            Element {
                least: 2000,
                greatest: 2000,
            },
            Element {
                least: 2020,
                greatest: 2020,
            },
            Element {
                least: 3000,
                greatest: 3000,
            },
        ],
    ),
    // A union merges twice.
    (
        &[0, 10, 20, 30, 40],
        &[5, 100, 200, 300],
        &[
            Element {
                least: 0,
                greatest: 10,
            },
            Element {
                least: 20,
                greatest: 20,
            },
            Element {
                least: 30,
                greatest: 30,
            },
            Element {
                least: 40,
                greatest: 40,
            },
            Element {
                least: 100,
                greatest: 100,
            },
            Element {
                least: 200,
                greatest: 200,
            },
            Element {
                least: 300,
                greatest: 300,
            },
        ],
    ),
    // Gaps that pass int8 are the greatest.
    (
        &[
            -9223372036854775808,
            -9223372036854775708,
            -9223372036854775508,
            -9223372036854775208,
            9223372036854775207,
            9223372036854775507,
            9223372036854775707,
            9223372036854775757,
            9223372036854775807,
        ],
        &[],
        &[
            Element {
                least: -9223372036854775808,
                greatest: -9223372036854775808,
            },
            Element {
                least: -9223372036854775708,
                greatest: -9223372036854775708,
            },
            Element {
                least: -9223372036854775508,
                greatest: -9223372036854775508,
            },
            Element {
                least: -9223372036854775208,
                greatest: -9223372036854775208,
            },
            Element {
                least: 9223372036854775207,
                greatest: 9223372036854775207,
            },
            Element {
                least: 9223372036854775507,
                greatest: 9223372036854775507,
            },
            Element {
                least: 9223372036854775707,
                greatest: 9223372036854775807,
            },
        ],
    ),
];

/// Whether numbers, united with others, leave these elements, and others once more change nothing.
fn leaves(alloc: Global, case: &Multis) -> Result<bool, NoMemory> {
    let class = Multi::new(8).ok_or(NoMemory)?;
    let mut summary = added(&class, alloc, case.0)?;
    let other = added(&class, alloc, case.1)?;
    let grew = class.union(&mut summary, &other);
    let again = class.union(&mut summary, &other);
    Ok(summary.elements() == case.2 && grew != case.1.is_empty() && !again)
}

#[test]
fn multi_merges_the_least_gaps(rt: HostRuntime) {
    let alloc = rt.alloc();
    let found = [
        leaves(alloc, &MULTIS[0]),
        leaves(alloc, &MULTIS[1]),
        leaves(alloc, &MULTIS[2]),
    ];
    assert_eq!(rt; found, [Ok(true); 3]);
}

/// No program asks this: a scan asks summaries that stand.
#[test]
fn values_may_match(rt: HostRuntime) {
    let values = [Value::Int(256), Value::Int(-2)];
    let below = Cond {
        column: 0,
        op: Op::Lt,
        key: Value::Int(-2),
    };
    let found = may_match(&MinMax::new(), rt.alloc(), &values, &[below]);
    assert_eq!(rt; found, Ok(false));
}

/// The bytes of a bloom of 64 bits that a value makes, and whether it changes the summary once alone.
fn made(alloc: Global, hashes: u8, value: Value) -> Result<([u8; 8], bool), NoMemory>
    requires { HasWords value }
{
    let class = Bloom::new(64, hashes).ok_or(NoMemory)?;
    let mut summary = class.empty(alloc)?;
    let changed = class.add(&mut summary, &value);
    let again = class.add(&mut summary, &value);
    let mut out = [7u8; 8];
    if class.greatest_size() <= 8 {
        class.encode(&summary, &mut out);
    }
    Ok((out, changed && !again))
}

#[test]
fn bloom_sets_the_positions_of_a_value(rt: HostRuntime) {
    let alloc = rt.alloc();
    let network = Net::v4(0xc0a8_0100, 24).expect(&rt, "a prefix");
    let found = [
        made(alloc, 2, Value::Int(0)),
        made(alloc, 2, Value::Int(-7_046_029_254_386_353_131)),
        made(alloc, 3, Value::Net(network)),
    ];
    let wanted = [
        Ok(([3, 0, 0, 0, 0, 0, 0, 0], true)),
        Ok(([0, 0, 0, 0, 0, 129, 0, 0], true)),
        Ok(([0, 0, 10, 0, 0, 0, 4, 0], true)),
    ];
    assert_eq!(rt; found, wanted);
}

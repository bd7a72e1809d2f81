//! What a scan is for.

ghost use Rattle.std.specs.Prelude.{◌≡◌, IfSome, IsSome, Some};
ghost use Rattle.session_scans.specs.Looks.{first_hand_of, scan_hand_of, scan_of};

use bitmap_scan::{Scan, Stage};
use block_model::Query;
use session_parts::Hand;
use std::mem;

/// The statement of a scan: a select tells the rows that it finds, and a delete marks them.
#[derive(Clone, Copy)]
pub(crate) enum Looking {
    Select,
    Delete,
}

/// The statement before its first step.
pub(crate) fn first_hand(looking: Looking, query: Query) -> Hand
    ensures { result ≡ first_hand_of looking query }
{
    match looking {
        Looking::Select => Hand::Selecting(query),
        Looking::Delete => Hand::Deleting(query),
    }
}

/// The statement in its scan.
pub(crate) fn scan_hand(looking: Looking, scan: Scan) -> Hand
    ensures { result ≡ scan_hand_of looking scan }
{
    match looking {
        Looking::Select => Hand::Selects(scan),
        Looking::Delete => Hand::Deletes(scan),
    }
}

/// The scan, which is taken out of the hand. `put` puts what the statement becomes in its place.
pub(crate) fn taken(hand: &mut Hand) -> Scan
    requires { IsSome (scan_of hand.old) }
    ensures scan { scan_of hand.old ≡ Some result }
    ensures place { hand.new ≡ Hand.Working }
{
    match mem::replace(hand, Hand::Working) {
        Hand::Selects(scan) => scan,
        Hand::Deletes(scan) => scan,
        _ => unreachable!(),
    }
}

/// The statement takes the place of a scan that was taken out.
pub(crate) fn put(hand: &mut Hand, statement: Hand)
    requires { hand.old ≡ Hand.Working }
    ensures { hand.new ≡ statement }
{
    match mem::replace(hand, statement) {
        Hand::Working => {}
        _ => unreachable!(),
    }
}

/// The stage of the scan.
pub(crate) fn stage_of(hand: &Hand) -> Stage
    requires { IsSome (scan_of hand.now) }
    ensures { IfSome (scan_of hand.now) (λ scan. result ≡ scan.judging.stage) }
{
    match hand {
        Hand::Selects(scan) => scan.stage(),
        Hand::Deletes(scan) => scan.stage(),
        _ => unreachable!(),
    }
}

//! What `matches` says of values, whichever they are: `=` is equality, operators agree with their converses, `<` orders numbers,
//! the operators on ranges speak of the sets of their numbers and those on networks of the sets of their addresses, and an
//! operator compares values of the kinds that take it and of no others. Each law is a function that does nothing: its contract
//! is the law, and whoever calls it may use it. It stands on block_model, whose definitions of matches, ranges and networks the
//! laws are about, and on statements, which says what operators each kind takes. No crate stands on it.

ghost use Rattle.model_laws.specs.EqualityIsIdentity.{EqualityIsIdentity};
ghost use Rattle.model_laws.specs.ConverseOperators.{ConverseOperators};
ghost use Rattle.model_laws.specs.ContainsIsSuperset.{ContainsIsSuperset};
ghost use Rattle.model_laws.specs.EqualIsSameNumbers.{EqualIsSameNumbers};
ghost use Rattle.model_laws.specs.OverlapsIsCommonNumber.{OverlapsIsCommonNumber};
ghost use Rattle.model_laws.specs.AdjacentIsNeighbours.{AdjacentIsNeighbours};
ghost use Rattle.model_laws.specs.BeforeIsLess.{BeforeIsLess};
ghost use Rattle.model_laws.specs.NotAfterIsReached.{NotAfterIsReached};
ghost use Rattle.model_laws.specs.NotBeforeIsPreceded.{NotBeforeIsPreceded};
ghost use Rattle.model_laws.specs.WithinIsPreorder.{WithinIsPreorder};
ghost use Rattle.model_laws.specs.MutualWithinIsOneNetwork.{MutualWithinIsOneNetwork};
ghost use Rattle.model_laws.specs.AddressesOfNetworks.{NetworkIsBlock};
ghost use Rattle.model_laws.specs.NetworksAreSets.{NetworksAreSets};
ghost use Rattle.model_laws.specs.NumbersAreOrdered.{NumbersAreOrdered};
ghost use Rattle.model_laws.specs.OperatorsHaveKinds.{OperatorsHaveKinds};
ghost use Rattle.model_laws.specs.NullTests.{NullTests};

/// A value that isn't null equals, by `=`, itself alone.
pub fn equality_is_identity()
    ensures { EqualityIsIdentity }
{}

/// Each operator holds exactly where its converse does with the values exchanged: `<` and `>`, `<=` and `>=`, `@>` and
/// `<@`, `<<` and `>>`, `<<=` and `>>=`; and `=`, `&&` and `-|-` are symmetric.
pub fn converse_operators()
    ensures { ConverseOperators }
{}

/// Numbers are ordered by `<`: none is less than itself, each is less than the next, and of two one is less or they are
/// equal. `<=` is `<` or `=`, and `>=` is `>` or `=`.
pub fn numbers_are_ordered()
    ensures { NumbersAreOrdered }
{}

/// A range contains another, by `@>`, exactly where it has each number of the other.
pub fn contains_is_superset()
    ensures { ContainsIsSuperset }
{}

/// Two ranges are equal, by `=`, exactly where they have the same numbers.
pub fn equal_is_same_numbers()
    ensures { EqualIsSameNumbers }
{}

/// Two ranges overlap, by `&&`, exactly where some number is in both.
pub fn overlaps_is_common_number()
    ensures { OverlapsIsCommonNumber }
{}

/// Two ranges are adjacent, by `-|-`, exactly where no number is in both, and some number is in one and the next in the
/// other.
pub fn adjacent_is_neighbours()
    ensures { AdjacentIsNeighbours }
{}

/// A range is before another, by `<<`, exactly where neither is empty and each of its numbers is less than each of the
/// other's.
pub fn before_is_less()
    ensures { BeforeIsLess }
{}

/// A range doesn't extend beyond another, by `&<`, exactly where neither is empty and at or after each of its numbers
/// there is one of the other's.
pub fn not_after_is_reached()
    ensures { NotAfterIsReached }
{}

/// A range doesn't begin before another, by `&>`, exactly where neither is empty and at or before each of its numbers
/// there is one of the other's.
pub fn not_before_is_preceded()
    ensures { NotBeforeIsPreceded }
{}

/// Networks are ordered by `<<=`: it is reflexive and transitive.
pub fn within_is_preorder()
    ensures { WithinIsPreorder }
{}

/// Two addresses are within each other, by `<<=`, exactly where they have the same family and prefix and agree in the bits
/// of the prefix.
pub fn mutual_within_is_one_network()
    ensures { MutualWithinIsOneNetwork }
{}

/// A network a/p has exactly the addresses whose first p bits are a's: 2^(32-p) of IPv4 or 2^(128-p) of IPv6, one after the
/// other.
pub fn network_is_block()
    ensures { NetworkIsBlock }
{}

/// Networks are sets of addresses: by `<<=` each address of the first is one of the second, by `<<` the second also has one
/// more, and by `&&` some address is in both; `>>=` and `>>` say it the other way round. Of different families none of them
/// holds.
pub fn networks_are_sets()
    ensures { NetworksAreSets }
{}

/// Of an operator that a kind takes some two values of the kind meet it. Of one that the kind doesn't take none do. Values
/// that meet an operator are of one kind, unless it asks whether a value is null.
pub fn operators_have_kinds()
    ensures { OperatorsHaveKinds }
{}

/// A null alone meets `is null`, and any other value `is not null`.
pub fn null_tests()
    ensures { NullTests }
{}

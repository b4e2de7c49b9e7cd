//! Worked examples of texts: the program that each spells, or the place of its first fault. Each
//! function does nothing: its contract says it, and the check computes it.
ghost use Rattle.job_script.specs.TextExamples.{BodyTooLong, BothTooLong, ChildTooLong, GreatestBound, LeastBound, LongName, LongestBody, LongestName, MillionActs, NoMain, NullLimits, NumberedNames, OnlyInnerTooLong, SixtyFourNames, TooManyNames, TooManyNamesWithin, TwoBounds, UnknownKey, WrongBounds, WrongInLong};

/// Lists that are too long, and lists that are not.
pub fn worked_lengths()
    ensures million_acts { MillionActs }
    ensures both_too_long { BothTooLong }
    ensures only_inner_too_long { OnlyInnerTooLong }
    ensures wrong_in_long { WrongInLong }
    ensures body_too_long { BodyTooLong }
    ensures longest_body { LongestBody }
    ensures child_too_long { ChildTooLong }
{}

/// Names: how long they may be, how they are numbered, and how many there may be.
pub fn worked_names()
    ensures long_name { LongName }
    ensures longest_name { LongestName }
    ensures numbered_names { NumberedNames }
    ensures too_many_names { TooManyNames }
    ensures sixty_four_names { SixtyFourNames }
    ensures too_many_names_within { TooManyNamesWithin }
{}

/// Bounds: how large they may be, and that nothing follows one.
pub fn worked_bounds()
    ensures least_bound { LeastBound }
    ensures greatest_bound { GreatestBound }
    ensures wrong_bounds { WrongBounds }
    ensures two_bounds { TwoBounds }
{}

/// Outer objects that are not of the form.
pub fn worked_outer_objects()
    ensures unknown_key { UnknownKey }
    ensures no_main { NoMain }
    ensures null_limits { NullLimits }
{}

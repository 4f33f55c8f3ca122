//! Laws of plans with names, each the contract of a function that does nothing.

ghost use Rattle.rail_base.specs.declared.station.Station.{Station};
ghost use Rattle.named_plans.specs.Laws.{NamedTextsReadBack, NumberedLinesReadBack, OrderIsNotPrinted};

/// A plan that is refused by nothing is read from its text with names, with the trains of each step in file order.
pub fn named_texts_read_back()
    ensures { (d : Station) → NamedTextsReadBack d }
{}

/// It is read so from the line that has its text with numbers, too.
pub fn numbered_lines_read_back()
    ensures { (d : Station) → NumberedLinesReadBack d }
{}

/// The texts of a plan do not tell in which order a step has its commands.
pub fn order_is_not_printed()
    ensures { (d : Station) → OrderIsNotPrinted d }
{}

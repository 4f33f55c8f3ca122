//! Laws of the answers, each the contract of a function that does nothing.

ghost use Rattle.draw_cli.specs.Laws.{DrawsWhereRoutesAreListed, DrawsWhereThereIsAVerdict, NamesAreDrawn};
ghost use Rattle.draw_cli.specs.Laws.{RefusesAsRoutes, RefusesAsSimulate, SilenceIsUsage};

/// Where `rcv routes` does not list the routes of a design, the answer is the same, by status and line.
pub fn refuses_as_routes()
    ensures { RefusesAsRoutes }
{}

/// Where it does, the answer is a drawing of the track of the design in the bytes.
pub fn draws_where_routes_are_listed()
    ensures { DrawsWhereRoutesAreListed }
{}

/// Where `rcv simulate` comes to no verdict on a plan, the answer is the same, by status and line.
pub fn refuses_as_simulate()
    ensures { RefusesAsSimulate }
{}

/// Where it does, the answer is a drawing of the run of the plan in the bytes.
pub fn draws_where_there_is_a_verdict()
    ensures { DrawsWhereThereIsAVerdict }
{}

/// In a drawing, each name that it is to show is the text of one of its lines, escaped.
pub fn names_are_drawn()
    ensures { NamesAreDrawn }
{}

/// Words that ask for nothing are answered by how the program is used, whatever the files are.
pub fn silence_is_usage()
    ensures { SilenceIsUsage }
{}

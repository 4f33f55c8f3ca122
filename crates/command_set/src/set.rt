//! Sets of commands.

ghost use Rattle.std.specs.Prelude.{◌≡◌, ◌≤◌, ◌<◌, IfOk, IfSome, length};
ghost use Rattle.rail_spec.specs.Plans.{all_commands, is_command, routes_given};
ghost use Rattle.interlocking.specs.Plans.{on};
ghost use Rattle.live_clause_spec.specs.Live.{is_live};
ghost use Rattle.live_clause_spec.specs.Listed.{live_routes};
ghost use Rattle.live_clause_spec.specs.Variables.{live_commands};
ghost use Rattle.command_set.specs.Commands.{AreCommandsOf, AreRising, OfDesign, first_place, is_among};
ghost use Rattle.command_set.specs.Rows.{AreRows, commands_by_rows};

use crate::lookup::{place_at, row_at};
use crate::places::{commands_of, places_of};
use crate::rows::{all_rows, live_rows};
use interlocking::Interlocking;
use rail_base::list::List;
use rail_base::plan::Command;
use rail_base::route::RouteNo;
use rail_base::station::TrainNo;
use std::alloc::{AllocError, Global};
use std::marker::Model;
use train_ways::OnwardRoutes;

/// Commands of a design, by train and then by route, each once.
#[derive(Drop)]
pub struct CommandSet {
    /// How many routes there are.
    pub(crate) routes: u32,
    /// For each train the routes of its commands, in rising order.
    pub(crate) rows: Vec<List<RouteNo>>,
    pub(crate) commands: Vec<Command>,
    /// For each train and each route the place of their command.
    pub(crate) places: Vec<List<Option<u32>>>,
}

impl Model for CommandSet {
    ghost use Rattle.std.specs.Prelude.{List};
    ghost use Rattle.rail_base.specs.declared.plan.Command.{Command};
    ghost use Rattle.command_set.specs.Rows.{IsSet};

    ghost Value = { List Command };

    ghost view = { λ s. s.commands.items };

    ghost invariant = { λ s. IsSet s.routes s.rows.items s.commands.items s.places.items };
}

impl CommandSet {
    /// All commands of a design.
    ///
    /// # Errors
    ///
    /// Want of memory alone.
    pub fn all(alloc: Global, interlocking: &Interlocking) -> Result<CommandSet, AllocError>
        ensures value { IfOk result (λ set. set
            ≡ all_commands interlocking.now.design.station interlocking.now.routes) }
        ensures are { IfOk result (λ set. on interlocking.now AreCommandsOf set) }
    {
        let rows = all_rows(alloc, interlocking)?;
        set_of(alloc, interlocking.routes.len() as u32, rows)
    }

    /// The live commands of a design.
    ///
    /// # Errors
    ///
    /// Want of memory alone.
    pub fn live(alloc: Global, interlocking: &Interlocking) -> Result<CommandSet, AllocError>
        ensures value { IfOk result (λ set. set
            ≡ live_commands (is_live interlocking.now.design.station interlocking.now.routes)
            interlocking.now.design.station interlocking.now.routes) }
        ensures are { IfOk result (λ set. on interlocking.now AreCommandsOf set) }
    {
        let onward = OnwardRoutes::of(alloc, interlocking)?;
        let rows = live_rows(alloc, &onward)?;
        set_of(alloc, interlocking.routes.len() as u32, rows)
    }

    /// The commands, by train and then by route.
    pub fn commands(&self) -> &[Command]
        ensures value { result.now ≡ self.now }
        ensures bound { length result.now ≤ 256000 }
    {
        &self.commands
    }

    /// How many there are.
    pub fn count(&self) -> usize
        ensures value { result ≡ length self.now }
        ensures bound { result ≤ 256000 }
    {
        self.commands.len()
    }

    /// How many commands stand before this one, if it is there.
    pub fn number(&self, command: Command) -> Option<u32>
        ensures place { result ≡ first_place (is_command command) self.now }
        ensures bound { IfSome result (λ place. place < length self.now) }
    {
        place_at(&self.places, command)
    }

    /// Whether the command is one of them.
    pub fn contains(&self, command: Command) -> bool
        ensures { result ≡ is_among self.now command }
    {
        self.number(command).is_some()
    }

    /// The routes of a train's commands, in order.
    pub fn routes_of(&self, train: TrainNo) -> &[RouteNo]
        ensures value { result.now ≡ routes_given train self.now }
        ensures rising { AreRising result.now }
        ensures bound { length result.now ≤ 2000 }
        ensures live { OfDesign self.now (λ d routes. result.now ≡ live_routes (is_among self.now) routes train) }
    {
        row_at(&self.rows, train)
    }
}

/// The commands of each train with the routes of its row, where there are so many routes.
fn set_of(alloc: Global, routes: u32, rows: Vec<List<RouteNo>>) -> Result<CommandSet, AllocError>
    requires { AreRows routes rows.items }
    ensures { IfOk result (λ set. set ≡ commands_by_rows rows.items) }
{
    let commands = commands_of(alloc, &rows)?;
    let places = places_of(alloc, routes, &rows)?;
    Ok(CommandSet {
        routes,
        rows,
        commands,
        places,
    })
}

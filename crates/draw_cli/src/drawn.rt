//! The reply to what is wanted.

ghost use Rattle.std.specs.Prelude.{◌≡◌, ◌≢◌, [], ◌∷◌, Some, Err, IfOk, true, false};
ghost use Rattle.named_files.specs.Replies.{Makes, RepliesFor, RepliesOf, is_unread};
ghost use Rattle.rail_outside.specs.Asks.{fetched};
ghost use Rattle.rail_spec.specs.Feasible.{IsRunnable};
ghost use Rattle.rail_spec.specs.Track.{routes_of};
ghost use Rattle.cli_shell.specs.Uses.{OnlyFetches};
ghost use Rattle.cli_shell.specs.Replies.{OnReply, RepliesWith, reply_seen};
ghost use Rattle.draw_cli.specs.Answers.{IsAnswerTo, IsRunAnswer, IsRunDrawing, IsTrackAnswer, IsTrackDrawing};
ghost use Rattle.draw_cli.specs.Answers.{PlanAnswers, RunAnswers, TrackAnswers, asks_to, design_name, plan_name, usage};
ghost use Rattle.draw_cli.specs.Replies.{StopsUnread};
ghost use Rattle.draw_cli.specs.Wanted.{run};
ghost use Rattle.draw_cli.specs.Words.{wanted_by};

use crate::wanted::Wanted;
use cli_shell::{Ending, InputFile, Reply, Status, admit, one_line, read_steps};
use drawing::drawing_lines;
use interlocking::Interlocking;
use named_files::{Unmade, fetch_named, unmade_by};
use plan_run::simulate;
use rail_base::plan::Plan;
use rail_outside::Shelf;
use run_drawing::run_picture;
use std::alloc::{AllocError, Global};
use track_drawing::track_picture;

/// The words ask for nothing.
fn usage(alloc: Global) -> Result<Reply, AllocError>
    ensures { RepliesWith result usage }
{
    let line = Vec::from_slice(alloc, b"usage: rcv_draw DESIGN [PLAN]\n")?;
    one_line(alloc, Status::Usage, line)
}

/// The reply to words that ask for nothing.
pub(crate) fn usage_made<'a>(alloc: Global) -> Result<Reply, Unmade<'a>>
    ensures makes { Makes (λ a. a ≡ usage) [] result }
    ensures read { is_unread result ≡ false }
{
    let reply = usage(alloc)?;
    Ok(reply)
}

/// The reply to what is wanted.
pub(crate) fn reply_to<'a, S: Shelf>(
    alloc: Global,
    shelf: &mut S,
    wanted: Wanted<'a>,
) -> Result<Reply, Unmade<'a>>
    ensures replies { let w = Some (wanted_by wanted.entry) in
        RepliesFor (S.known_files shelf.old) (design_name w) (plan_name w) (IsAnswerTo w) result }
    ensures stops { StopsUnread (Some (wanted_by wanted.entry)) result (S.asked shelf.old) (S.asked shelf.new) }
    ensures uses { OnlyFetches S.known_files S.asked S.fault_count shelf.old shelf.new
        (asks_to (Some (wanted_by wanted.entry))) (is_unread result ≡ true) }
{
    match wanted {
        Wanted::Track { design } => track(alloc, shelf, design),
        Wanted::Run { design, plan } => run(alloc, shelf, design, plan),
    }
}

/// The drawing of the track of a design.
fn track_drawn(alloc: Global, interlocking: &Interlocking) -> Result<Reply, AllocError>
    ensures { IfOk result (λ reply. IsTrackDrawing interlocking.now.design.station (reply_seen reply)) }
{
    let picture = track_picture(alloc, &interlocking.design.station)?;
    let lines = drawing_lines(alloc, &picture)?;
    Ok(Reply {
        status: Status::Done,
        lines,
    })
}

/// The drawing of the run of a plan, up to its deciding tick.
fn run_drawn(alloc: Global, interlocking: &Interlocking, plan: &Plan) -> Result<Reply, AllocError>
    requires runnable { let d = interlocking.now.design.station in IsRunnable d (routes_of d) 256 plan.now.steps }
    ensures { IfOk result (λ reply.
        IsRunDrawing interlocking.now.design.station plan.now.steps (reply_seen reply)) }
{
    let verdict = simulate(alloc, interlocking, plan, interlocking.design.horizon())?;
    let routes = interlocking.routes.as_slice();
    let picture = run_picture(alloc, &interlocking.design, routes, &verdict)?;
    let lines = drawing_lines(alloc, &picture)?;
    Ok(Reply {
        status: Status::Done,
        lines,
    })
}

/// The reply for the text of a design.
fn track_in(alloc: Global, text: &[u8]) -> Result<Reply, Ending>
    ensures replies { OnReply result (λ reply. TrackAnswers text.now (reply_seen reply)) }
    ensures no_fault { result ≢ Err Ending.ShelfFault }
{
    let interlocking = admit(alloc, text)?;
    Ok(track_drawn(alloc, &interlocking)?)
}

/// The reply for a design and the text of a plan.
fn run_in(alloc: Global, interlocking: &Interlocking, text: &[u8]) -> Result<Reply, Ending>
    ensures replies { OnReply result (λ reply.
        PlanAnswers interlocking.now.design.station text.now (reply_seen reply)) }
    ensures no_fault { result ≢ Err Ending.ShelfFault }
{
    let plan = read_steps(alloc, interlocking, text)?;
    Ok(run_drawn(alloc, interlocking, &plan)?)
}

/// The reply for a design, by the name of its file.
fn track<'a, S: Shelf>(alloc: Global, shelf: &mut S, design: &'a str) -> Result<Reply, Unmade<'a>>
    ensures replies { RepliesOf (S.known_files shelf.old) design.entry.now IsTrackAnswer result }
    ensures uses { OnlyFetches S.known_files S.asked S.fault_count shelf.old shelf.new
        (fetched design.entry.now ∷ []) (is_unread result ≡ true) }
{
    let bytes = fetch_named(alloc, shelf, InputFile::Design, design)?;
    match track_in(alloc, bytes.as_slice()) {
        Ok(reply) => Ok(reply),
        Err(ending) => Err(unmade_by(ending)),
    }
}

/// The reply for a design and a plan, by the name of the plan's file.
fn run_over<'a, S: Shelf>(
    alloc: Global,
    shelf: &mut S,
    interlocking: &Interlocking,
    plan: &'a str,
) -> Result<Reply, Unmade<'a>>
    ensures replies { RepliesOf (S.known_files shelf.old) plan.entry.now
        (λ bytes. RunAnswers bytes interlocking.now.design.station) result }
    ensures uses { OnlyFetches S.known_files S.asked S.fault_count shelf.old shelf.new
        (fetched plan.entry.now ∷ []) (is_unread result ≡ true) }
{
    let bytes = fetch_named(alloc, shelf, InputFile::Plan, plan)?;
    match run_in(alloc, interlocking, bytes.as_slice()) {
        Ok(reply) => Ok(reply),
        Err(ending) => Err(unmade_by(ending)),
    }
}

/// The reply for a design and a plan, by the names of their files.
fn run<'a, S: Shelf>(
    alloc: Global,
    shelf: &mut S,
    design: &'a str,
    plan: &'a str,
) -> Result<Reply, Unmade<'a>>
    ensures replies { RepliesFor (S.known_files shelf.old) (Some design.entry.now) (Some plan.entry.now)
        IsRunAnswer result }
    ensures stops { StopsUnread (Some (run design.entry.now plan.entry.now)) result
        (S.asked shelf.old) (S.asked shelf.new) }
    ensures uses { OnlyFetches S.known_files S.asked S.fault_count shelf.old shelf.new
        (fetched design.entry.now ∷ fetched plan.entry.now ∷ []) (is_unread result ≡ true) }
{
    let bytes = fetch_named(alloc, shelf, InputFile::Design, design)?;
    match admit(alloc, bytes.as_slice()) {
        Ok(interlocking) => run_over(alloc, shelf, &interlocking, plan),
        Err(ending) => Err(unmade_by(ending)),
    }
}

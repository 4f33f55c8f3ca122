ghost use Rattle.std.specs.Prelude.{◌≡◌, ◌++◌, ◌∷◌, [], ◌<◌, ◌≤◌, ◌+◌, ◌⊎◌, ℕ, List, true, false, not, nat_eq, map};
ghost use Rattle.std.specs.Prelude.{length, IfOk, OnOk, OnErr, IfSome, IfNone, Some, None, IsTrue, IsFalse, take, drop};
ghost use Rattle.std.specs.Prelude.{set, slice_get, slice_index_or};
ghost use Rattle.std.specs.List.{All, filter};
ghost use Rattle.sat_clause.specs.declared.lit.Lit.{Lit};
ghost use Rattle.sat_clause.specs.Clauses.{opposite};
ghost use Rattle.sat_clause.specs.Hints.{same_lit, is_assigned, open_lits, unit_of};
ghost use Rattle.sat_trail.specs.Trails.{lits, IsTrail, AllIn, depth};
ghost use Rattle.sat_trail.specs.Attached.{Seen, AreLive, IsSameBut, attached_clause, is_among};
ghost use Rattle.sat_trail.specs.Blockers.{IsBlocked, AllBlocked, StaysBlocked, StaysBlockedWith};
ghost use Rattle.sat_trail.specs.Forced.{IsForced, VarsUpTo};
ghost use Rattle.sat_trail.specs.Walks.{IsConflict, IsClosedOrFalse};
ghost use Rattle.sat_trail.specs.Watches.{code_of, row_at, edit, entries, rows, IsCut, other_in, IsOpenPair};
ghost use Rattle.sat_trail.specs.Watches.{OthersAreFalse};
ghost use Rattle.sat_trail.specs.Scans.{IsPropagation};
ghost use Rattle.sat_trail.specs.Settled.{IsSettled};
ghost use Rattle.sat_trail.specs.Watching.{row_in, IsWatchingIn, AllBlockedIn, IsLooseOrWatchedIn, PendingIn, LookedIn};

use crate::assigned::Assigned;
use crate::entry::Entry;
use crate::pair::Pair;
use crate::scan::{scan, scan_among};
use crate::settled::{Settled, unsettled_clauses};
use crate::status::{Propagation, Visit};
use crate::walk::{negate, same};
use sat_clause::{Arena, Lit};
use std::alloc::{AllocError, Global};

/// Two literals of each clause, the clauses of each literal, and clauses that are looked at each time.
#[derive(Drop)]
pub struct Watches {
    /// The two literals by which each clause is watched.
    pub pairs: Vec<Pair>,
    /// For each literal the clauses that it watches. Some may no longer be watched by it.
    pub lists: Vec<Vec<Entry>>,
    /// Clauses that are not watched.
    pub loose: Vec<u64>,
}

/// The place of a literal's list.
pub fn code(l: Lit) -> usize
    ensures { result ≡ code_of l }
{
    let twice = l.var as usize * 2;
    if l.negated { twice + 1 } else { twice }
}

/// Puts a clause at the end of a list, with one of its literals.
pub fn put_entry(
    lists: &mut Vec<Vec<Entry>>,
    place: usize,
    id: u64,
    blocker: Lit,
) -> Result<(), AllocError>
    requires { place < length lists.old.items }
    ensures ok { OnOk result (rows lists.new.items ≡ edit (λ r. r ++ id ∷ []) (rows lists.old.items) place) }
    ensures err { OnErr result (rows lists.new.items ≡ rows lists.old.items) }
    ensures blocked { StaysBlockedWith (record { id = id; blocker = blocker }) lists.old.items lists.new.items }
{
    lists[place].push(Entry { id, blocker })?;
    Ok(())
}

/// Adds what the live clauses force, until one of them is false or nothing more is forced.
pub fn propagate_all(
    trail: &mut Assigned,
    watches: &mut Watches,
    settled: Settled,
    head: &mut usize,
    arena: &Arena,
) -> Result<Option<u64>, AllocError>
    requires attached { AreLive arena.now trail.old.attached }
    requires trail { IsTrail arena.now trail.old.steps }
    requires in_vars { VarsUpTo arena.now trail.old.vars }
    requires watching { IsWatchingIn trail.old watches.old head.old }
    requires blocked { AllBlockedIn trail.old.attached watches.old }
    requires settled { IsSettled trail.old watches.old.loose.items settled.count settled.top }
    ensures trail { IsTrail arena.now trail.new.steps }
    ensures forced { IsForced trail.old trail.new }
    ensures watching { IsWatchingIn trail.new watches.new head.new }
    ensures blocked { AllBlockedIn trail.new.attached watches.new }
    ensures loose { watches.new.loose.items ≡ watches.old.loose.items }
    ensures closed { IfOk result (IsClosedOrFalse arena.now (lits trail.new.steps)) }
{
    'forced: loop {
        if let Some(id) = advance(trail, watches, head, arena)? {
            return Ok(Some(id));
        }
        match rest(trail, watches, settled, *head, arena) {
            Propagation::Closed => return Ok(None),
            Propagation::Conflict(id) => return Ok(Some(id)),
            Propagation::Unit(l, id) => trail.force(l, id),
        }
    }
}

/// Watches a clause of this number, or keeps it among the loose ones.
pub fn watch(
    trail: &Assigned,
    watches: &mut Watches,
    _head: usize,
    clause: &[Lit],
    id: u64,
) -> Result<(), AllocError>
    requires watching { IsWatchingIn trail.now watches.old _head }
    requires blocked { AllBlockedIn trail.now.attached watches.old }
    requires apart { attached_clause trail.now.attached id ≡ None }
    requires in_vars { AllIn trail.now.vars clause.now }
    ensures watching { IsWatchingIn trail.now watches.new _head }
    ensures blocked { (seen : Seen) → IsSameBut trail.now.attached seen id clause.now → AllBlockedIn seen watches.new }
    ensures loose { (watches.new.loose.items ≡ watches.old.loose.items)
        ⊎ (watches.new.loose.items ≡ watches.old.loose.items ++ id ∷ []) }
    ensures ok { OnOk result
        (IsLooseOrWatchedIn watches.new clause.now id (take _head trail.now.steps) trail.now.steps) }
{
    make_free(&mut watches.lists, watches.pairs.len(), id);
    let Some(pair) = choose(trail, clause) else {
        watches.loose.push(id)?;
        return Ok(());
    };
    reach(&mut watches.pairs, id, pair)?;
    put_entry(&mut watches.lists, code(pair.first), id, pair.second)?;
    put_entry(&mut watches.lists, code(pair.second), id, pair.first)?;
    set_pair(&mut watches.pairs, id, pair);
    Ok(())
}

/// This many lists, with nothing in them.
pub fn empty_lists(alloc: Global, count: usize) -> Result<Vec<Vec<Entry>>, AllocError>
    ensures size { IfOk result (λ lists. length (rows lists.items) ≡ count) }
    ensures empty { IfOk result (λ lists. All (λ es. es ≡ []) (entries lists.items)) }
{
    let mut lists = Vec::with_capacity(alloc, count)?;
    'more: while lists.len() < count {
        lists.push(Vec::new(alloc))?;
    }
    Ok(lists)
}

/// Takes a clause out of a list. The last one takes its place.
fn cut_entry(lists: &mut Vec<Vec<Entry>>, place: usize, i: usize)
    requires { i < length (row_at (rows lists.old.items) place) }
    ensures cut { IsCut (rows lists.old.items) (rows lists.new.items) place i }
    ensures blocked { StaysBlocked lists.old.items lists.new.items }
{
    lists[place].swap_remove(i);
}

/// Writes an entry in the place of another.
fn put_at(list: &mut Vec<Entry>, i: usize, entry: Entry)
    requires { i < length list.old.items }
    ensures { list.new.items ≡ set list.old.items i entry }
{
    list[i] = entry;
}

/// Names another literal beside a clause in a list.
fn set_blocker(lists: &mut Vec<Vec<Entry>>, place: usize, i: usize, entry: Entry)
    requires within { i < length (row_at (rows lists.old.items) place) }
    requires same { entry.id ≡ slice_index_or (row_at (rows lists.old.items) place) i 0 }
    ensures rows { rows lists.new.items ≡ rows lists.old.items }
    ensures blocked { StaysBlockedWith entry lists.old.items lists.new.items }
{
    put_at(&mut lists[place], i, entry);
}

/// The entry at an index of a list.
fn entry_at(lists: &[Vec<Entry>], place: usize, i: usize) -> Option<Entry>
    ensures entry { IfSome result (λ e. (i < length (row_at (rows lists.now) place))
        × (e.id ≡ slice_index_or (row_at (rows lists.now) place) i 0)) }
    ensures none { IfNone result (length (row_at (rows lists.now) place) ≤ i) }
    ensures bound { IfSome result (λ _. i + 1 < 18446744073709551616) }
    ensures blocked { IfSome result (λ e. (seen : Seen) (loose : List ℕ) (count : ℕ)
        → AllBlocked seen loose count lists.now → IsBlocked seen loose count e) }
{
    let Some(list) = lists.get(place) else {
        return None;
    };
    if i < list.len() { Some(list[i]) } else { None }
}

/// Takes a clause out of a list, wherever it stands there.
fn take_out(list: &mut Vec<Entry>, id: u64)
    ensures { list.new.items ≡ filter (λ e. not (nat_eq e.id id)) list.old.items }
{
    list.retain(|entry| entry.id != id);
}

/// Takes a clause out of all lists.
fn take_out_all(lists: &mut Vec<Vec<Entry>>, id: u64)
    ensures { entries lists.new.items ≡ map (filter (λ e. not (nat_eq e.id id))) (entries lists.old.items) }
{
    for i in 0..lists.len() {
        take_out(&mut lists[i], id);
    }
}

/// Takes a clause out of all lists before its number is used for another one. It stands in none where no number is this
/// high.
fn make_free(lists: &mut Vec<Vec<Entry>>, count: usize, id: u64)
    ensures size { length (rows lists.new.items) ≡ length (rows lists.old.items) }
    ensures others { (k x : ℕ) → (x ≡ id → ⊥) → is_among (row_at (rows lists.old.items) k) x ≡ true
        → is_among (row_at (rows lists.new.items) k) x ≡ true }
    ensures blocked { (seen now : Seen) (loose : List ℕ) (c : List Lit) → IsSameBut seen now id c
        → AllBlocked seen loose count lists.old.items → AllBlocked now loose count lists.new.items }
{
    if id < count as u64 {
        take_out_all(lists, id);
    }
}

/// The other literal of a clause's pair, where this is one of them.
fn other_watch(pairs: &[Pair], id: u64, w: Lit) -> Option<Lit>
    ensures { result ≡ other_in (slice_get pairs.now id) w }
{
    match pairs.get(id as usize) {
        None => None,
        Some(pair) => {
            if same(pair.first, w) {
                Some(pair.second)
            } else if same(pair.second, w) {
                Some(pair.first)
            } else {
                None
            }
        }
    }
}

/// A literal of the clause other than one, that isn't false. Its place is written down.
fn open_literal(trail: &Assigned, clause: &[Lit], other: Lit, place: &mut usize) -> Option<Lit>
    ensures member { IfSome result (λ l. is_assigned clause.now l ≡ true) }
    ensures apart { IfSome result (λ l. same_lit l other ≡ false) }
    ensures not_false { IfSome result (λ l. is_assigned (lits trail.now.steps) (opposite l) ≡ false) }
    ensures none { IfNone result (OthersAreFalse (lits trail.now.steps) clause.now other) }
{
    for (i, l) in clause.iter().enumerate() {
        if !trail.holds(negate(*l)) && !same(*l, other) {
            *place = i;
            return Some(*l);
        }
    }
    None
}

/// The literals of a clause before a place.
fn before(clause: &[Lit], place: usize) -> &[Lit]
    requires { place ≤ length clause.now }
    ensures { result.now ≡ take place clause.now }
{
    &clause[..place]
}

/// The literals of a clause from a place on.
fn from_place(clause: &[Lit], place: usize) -> &[Lit]
    requires { place ≤ length clause.now }
    ensures { result.now ≡ drop place clause.now }
{
    &clause[place..]
}

/// A literal of the clause other than one, that isn't false. The search begins where the last one ended.
fn replacement(trail: &Assigned, clause: &[Lit], other: Lit, start: &mut usize) -> Option<Lit>
    ensures member { IfSome result (λ l. is_assigned clause.now l ≡ true) }
    ensures apart { IfSome result (λ l. same_lit l other ≡ false) }
    ensures not_false { IfSome result (λ l. is_assigned (lits trail.now.steps) (opposite l) ≡ false) }
    ensures none { IfNone result (OthersAreFalse (lits trail.now.steps) clause.now other) }
{
    let first = if *start < clause.len() { *start } else { 0 };
    let mut place = 0;
    if let Some(l) = open_literal(trail, from_place(clause, first), other, &mut place) {
        *start = first.saturating_add(place);
        return Some(l);
    }
    open_literal(trail, before(clause, first), other, start)
}

/// Where the search for another literal of a clause begins.
fn start_of(pairs: &[Pair], id: u64) -> usize {
    match pairs.get(id as usize) {
        Some(pair) => pair.start,
        None => 0,
    }
}

/// Watches a clause by this pair from now on.
fn set_pair(pairs: &mut Vec<Pair>, id: u64, pair: Pair)
    requires { id < length pairs.old.items }
    ensures same { (k : ℕ) → (k ≡ id → ⊥) → slice_get pairs.new.items k ≡ slice_get pairs.old.items k }
    ensures there { slice_get pairs.new.items id ≡ Some pair }
    ensures size { length pairs.new.items ≡ length pairs.old.items }
{
    pairs[id as usize] = pair;
}

/// Whether a literal is one of the clause.
fn has(clause: &[Lit], l: Lit) -> bool
    ensures { result ≡ is_assigned clause.now l }
{
    clause.iter().any(|k| same(l, *k))
}

/// Whether a clause is false. All its literals but one are, and that one isn't true.
fn is_false(trail: &Assigned, clause: &[Lit], other: Lit) -> bool
    requires not_true { is_assigned (lits trail.now.steps) other ≡ false }
    requires others { OthersAreFalse (lits trail.now.steps) clause.now other }
    ensures yes { IsTrue result → open_lits (lits trail.now.steps) clause.now ≡ [] }
    ensures no { IsFalse result → unit_of (lits trail.now.steps) clause.now ≡ Some other }
{
    trail.holds(negate(other)) || !has(clause, other)
}

/// Looks at a clause that a literal watches which has become false: watches it by another one, or adds what it forces.
fn visit_clause(
    trail: &mut Assigned,
    watches: &mut Watches,
    arena: &Arena,
    w: Lit,
    head: usize,
    entry: Entry,
) -> Result<Visit, AllocError>
    requires attached { AreLive arena.now trail.old.attached }
    requires trail { IsTrail arena.now trail.old.steps }
    requires in_vars { VarsUpTo arena.now trail.old.vars }
    requires watching { IsWatchingIn trail.old watches.old head }
    requires blocked { AllBlockedIn trail.old.attached watches.old }
    requires entry { IsBlocked trail.old.attached watches.old.loose.items (length watches.old.pairs.items) entry }
    requires is_false { is_assigned (lits trail.old.steps) (opposite w) ≡ true }
    ensures trail { IsTrail arena.now trail.new.steps }
    ensures forced { IsForced trail.old trail.new }
    ensures watching { IsWatchingIn trail.new watches.new head }
    ensures blocked { AllBlockedIn trail.new.attached watches.new }
    ensures loose { watches.new.loose.items ≡ watches.old.loose.items }
    ensures count { length watches.new.pairs.items ≡ length watches.old.pairs.items }
    ensures row { row_in watches.new (code_of w) ≡ row_in watches.old (code_of w) }
    ensures pending { (left : List ℕ) → PendingIn trail.old watches.old w left
        → PendingIn trail.new watches.new w left }
    ensures looked { IfOk result (LookedIn trail.new watches.new arena.now w entry.id) }
{
    let _ = trail.steps();
    if trail.holds(entry.blocker) {
        return Ok(Visit::Blocked);
    }
    let Some(other) = other_watch(&watches.pairs, entry.id, w) else {
        return Ok(Visit::Gone);
    };
    if trail.holds(other) {
        return Ok(Visit::Kept(other));
    }
    if !arena.live(entry.id) {
        return Ok(Visit::Gone);
    }
    let clause = arena.clause(entry.id);
    let mut start = start_of(&watches.pairs, entry.id);
    if let Some(l) = replacement(trail, clause, other, &mut start) {
        put_entry(&mut watches.lists, code(l), entry.id, other)?;
        set_pair(
            &mut watches.pairs,
            entry.id,
            Pair {
                first: l,
                second: other,
                start,
            },
        );
        return Ok(Visit::Gone);
    }
    if is_false(trail, clause, other) {
        return Ok(Visit::False);
    }
    trail.force(other, entry.id);
    Ok(Visit::Kept(other))
}

/// Looks at each clause that a literal watches which has become false. The answer is a clause that is false.
fn visit_all(
    trail: &mut Assigned,
    watches: &mut Watches,
    arena: &Arena,
    w: Lit,
    head: usize,
) -> Result<Option<u64>, AllocError>
    requires attached { AreLive arena.now trail.old.attached }
    requires trail { IsTrail arena.now trail.old.steps }
    requires in_vars { VarsUpTo arena.now trail.old.vars }
    requires watching { IsWatchingIn trail.old watches.old head }
    requires blocked { AllBlockedIn trail.old.attached watches.old }
    requires within { head < length trail.old.steps }
    requires there { (d : _) → (slice_index_or trail.old.steps head d).lit ≡ opposite w }
    requires level { (d : _) → (slice_index_or trail.old.steps head d).level ≡ depth trail.old.steps }
    ensures trail { IsTrail arena.now trail.new.steps }
    ensures forced { IsForced trail.old trail.new }
    ensures watching { IsWatchingIn trail.new watches.new head }
    ensures blocked { AllBlockedIn trail.new.attached watches.new }
    ensures loose { watches.new.loose.items ≡ watches.old.loose.items }
    ensures next { IfOk result (λ o. IfNone o (IsWatchingIn trail.new watches.new (head + 1))) }
    ensures found { IfOk result (λ o. IfSome o (IsConflict arena.now (lits trail.new.steps))) }
{
    let place = code(w);
    let mut i = 0;
    'list: while let Some(entry) = entry_at(&watches.lists, place, i) {
        match visit_clause(trail, watches, arena, w, head, entry)? {
            Visit::Gone => cut_entry(&mut watches.lists, place, i),
            Visit::Blocked => i += 1,
            Visit::Kept(blocker) => {
                let kept = Entry {
                    id: entry.id,
                    blocker,
                };
                set_blocker(&mut watches.lists, place, i, kept);
                i += 1;
            }
            Visit::False => return Ok(Some(entry.id)),
        }
    }
    Ok(None)
}

/// The opposite of the literal at a place of the trail, where it is of the last level.
fn next_false(trail: &Assigned, head: usize) -> Option<Lit>
    ensures within { IfSome result (λ _. head < length trail.now.steps) }
    ensures bound { IfSome result (λ _. head < trail.now.vars) }
    ensures there { IfSome result (λ w. (d : _) → (slice_index_or trail.now.steps head d).lit ≡ opposite w) }
    ensures level { IfSome result (λ _. (d : _)
        → (slice_index_or trail.now.steps head d).level ≡ depth trail.now.steps) }
{
    let depth = trail.depth();
    let steps = trail.steps();
    if head < steps.len() {
        let step = steps[head];
        if step.level == depth {
            return Some(negate(step.lit));
        }
    }
    None
}

/// Looks at the clauses of one literal after another, while these are of the last level. The answer is a clause that is
/// false.
fn advance(
    trail: &mut Assigned,
    watches: &mut Watches,
    head: &mut usize,
    arena: &Arena,
) -> Result<Option<u64>, AllocError>
    requires attached { AreLive arena.now trail.old.attached }
    requires trail { IsTrail arena.now trail.old.steps }
    requires in_vars { VarsUpTo arena.now trail.old.vars }
    requires watching { IsWatchingIn trail.old watches.old head.old }
    requires blocked { AllBlockedIn trail.old.attached watches.old }
    ensures trail { IsTrail arena.now trail.new.steps }
    ensures forced { IsForced trail.old trail.new }
    ensures watching { IsWatchingIn trail.new watches.new head.new }
    ensures blocked { AllBlockedIn trail.new.attached watches.new }
    ensures loose { watches.new.loose.items ≡ watches.old.loose.items }
    ensures found { IfOk result (λ o. IfSome o (IsConflict arena.now (lits trail.new.steps))) }
{
    'ahead: while let Some(w) = next_false(trail, *head) {
        if let Some(id) = visit_all(trail, watches, arena, w, *head)? {
            return Ok(Some(id));
        }
        *head += 1;
    }
    Ok(None)
}

/// What is found without the watches: in the loose clauses that are not settled, or in all of them where a literal of a
/// lower level is still to be looked at.
fn rest(
    trail: &Assigned,
    watches: &Watches,
    settled: Settled,
    head: usize,
    arena: &Arena,
) -> Propagation
    requires attached { AreLive arena.now trail.now.attached }
    requires trail { IsTrail arena.now trail.now.steps }
    requires watching { IsWatchingIn trail.now watches.now head }
    requires settled { IsSettled trail.now watches.now.loose.items settled.count settled.top }
    ensures { IsPropagation arena.now (lits trail.now.steps) result }
{
    if head < trail.steps().len() {
        return scan(trail, arena);
    }
    scan_among(
        trail,
        arena,
        unsettled_clauses(&watches.loose, settled.count),
    )
}

/// Makes the list of pairs reach up to a number.
fn reach(pairs: &mut Vec<Pair>, id: u64, pair: Pair) -> Result<(), AllocError>
    ensures same { (k : ℕ) (p : _) → slice_get pairs.old.items k ≡ Some p → slice_get pairs.new.items k ≡ Some p }
    ensures ok { OnOk result (id < length pairs.new.items) }
{
    'far: while pairs.len() as u64 <= id {
        pairs.push(pair)?;
    }
    Ok(())
}

/// Two literals of a clause that aren't false.
fn choose(trail: &Assigned, clause: &[Lit]) -> Option<Pair>
    ensures { IfSome result (λ p. IsOpenPair clause.now (lits trail.now.steps) p) }
{
    let nowhere = Lit {
        var: 0,
        negated: false,
    };
    let mut place = 0;
    let second = open_literal(trail, clause, nowhere, &mut place)?;
    let first = open_literal(trail, clause, second, &mut place)?;
    Some(Pair {
        first,
        second,
        start: 0,
    })
}

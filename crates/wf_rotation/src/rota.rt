ghost use Rattle.std.specs.Prelude.{◌≡◌, ℕ, ◌+◌, ◌-◌, ◌*◌, ◌^◌, ◌<◌, ◌≤◌, Bool, true, List, [], ◌∷◌, ◌++◌, length, map, replicate, slice_set, IfOk, IfSome, IfNone, MatchOption, Some, pos, negsuc, ◌+ℤ◌, ◌-ℤ◌, ◌≤ℤ◌};
ghost use Rattle.wf_def_rotation.specs.Rotation.{no_keys, with_new_key, with_old_key, without_key, has_key, in_order};
ghost use Rattle.wf_rotation.specs.Rotas.{Rotas, deficit_at, quantum_at, need_at, is_ready, lesser, IsUnlisted, picked_at};
ghost use Rattle.wf_rotation.specs.Lists.{lists_at, keys_at, with_keys, has_on, first_of, AreDisjoint};
ghost use Rattle.wf_rotation.specs.Steps.{most_visits, visits_within};
ghost use Rattle.wf_rotation.specs.Visits.{first_visit, HasVisited, EndsAs, IsOnlyOld, HasPaidOnly};
ghost use Rattle.wf_rotation.specs.Scan.{IsFound, IsRoundOn, IsWon};
ghost use Rattle.wf_rotation.specs.declared.side.Side.TheVariants.{Old};
ghost use Rattle.wf_rotation.specs.Pass.{raised, passed_first, passed_olds, way, SharesAre, HasPassed, WasPickedFrom, HasPicked, passed_key, last_after, last_before};

use crate::Side;
use crate::links::Links;
use crate::pass::{Course, Share, last_kept, raised, side_at};
use crate::scan::{Best, Found, first_round_of, need_of, scanned};
use std::alloc::{AllocError, Global};
use std::marker::Model;

/// The number of visits of the loop after which a pick goes on in closed form.
const MOST_VISITS: usize = 32;

/// The result of a pick.
#[derive(Clone, Copy)]
pub struct Pick {
    /// The key whose turn it is, or None if no key of the rotation is ready.
    pub winner: Option<u32>,
    /// The number of times that the pick looked at a key or moved one.
    pub steps: usize,
}

/// The result of a pass.
#[derive(Clone, Copy)]
struct Passed {
    /// The last of the keys that are before the winner and stay.
    last: Option<u32>,
    /// The number of keys that were passed.
    count: usize,
}

/// The end of one visit of the loop.
#[derive(Clone, Copy)]
enum VisitEnd {
    /// The loop ends with this winner, or with None if both lists are empty.
    Done(Option<u32>),
    /// The loop goes on with the next visit.
    GoesOn,
}

/// The list on which a key is.
#[derive(Clone, Copy)]
struct Home {
    list: u32,
    side: Side,
}

/// Disjoint rotations of keys, which are numbered from 0. Each key has a deficit, at least -2^62 and below
/// 2^32, and a quantum, from 1 to 2^32 - 1, both in the unit of the caller: microseconds for stations, octets
/// for flow queues. A key is on at most one list of one rotation.
pub struct Rota {
    links: Links,
    /// The list of each key, or None if the key is on no list.
    homes: Vec<Option<Home>>,
    deficits: Vec<i64>,
    quanta: Vec<u32>,
}

// Written out, so that the proof of a function that drops a `Rota` has one call instead of the drop of each
// field.
impl Drop for Rota {
    fn drop(self) {
        let Rota {
            links: _links,
            homes: _homes,
            deficits: _deficits,
            quanta: _quanta,
        } = self;
    }
}

impl Model for Rota {
    ghost use Rattle.wf_rotation.specs.Rotas.{Rotas};
    ghost use Rattle.wf_rotation.specs.Homes.{AreKept};

    ghost Value = { Rotas };

    ghost view = { λ r. record {
      lists = r.links.lists;
      deficits = r.deficits.items;
      quanta = r.quanta.items;
    } };

    ghost invariant = { λ r. AreKept r.links r.homes.items r.deficits.items r.quanta.items };
}

impl Rota {
    /// Creates `lists` empty rotations over `keys` keys, each number from 1 to 65,536. Every key has this
    /// quantum, at least 1, and every deficit equals it. Fails if there is no memory. No other call
    /// allocates.
    pub fn new(alloc: Global, keys: u32, lists: u32, quantum: u32) -> Result<Self, AllocError>
        requires some_keys { 1 ≤ keys }
        requires few_keys { keys ≤ 65536 }
        requires some_lists { 1 ≤ lists }
        requires few_lists { lists ≤ 65536 }
        requires positive { 1 ≤ quantum }
        ensures { IfOk result (λ rota. rota ≡ record {
          lists = replicate lists no_keys;
          deficits = replicate keys (pos quantum);
          quanta = replicate keys quantum;
        }) }
    {
        let links = Links::new(alloc, keys, lists)?;
        let homes = vec![in alloc; None; keys as usize]?;
        let deficits = vec![in alloc; i64::from(quantum); keys as usize]?;
        let quanta = vec![in alloc; quantum; keys as usize]?;
        Ok(Rota {
            links,
            homes,
            deficits,
            quanta,
        })
    }

    /// Returns the deficit of a key.
    pub fn deficit(&self, key: u32) -> i64
        requires { key < length self.now.deficits }
        ensures { result ≡ deficit_at self.now.deficits key }
    {
        self.deficits[key as usize]
    }

    /// Puts a key that is on no list last on the new list of a rotation (algorithm 1, enqueue). Constant
    /// time.
    pub fn add_new(&mut self, list: u32, key: u32)
        requires in_lists { list < length self.old.lists }
        requires in_keys { key < length self.old.deficits }
        requires unlisted { IsUnlisted self.old.lists key }
        ensures { self.new ≡ record self.old {
          lists = slice_set self.old.lists list (with_new_key (lists_at self.old.lists list) key);
        } }
    {
        self.links.put_last(list, Side::New, key);
        self.homes[key as usize] = Some(Home {
            list,
            side: Side::New,
        });
    }

    /// Puts a key that is on no list last on the old list of a rotation, so that it is visited after all keys
    /// that are listed. Constant time.
    pub fn add_old(&mut self, list: u32, key: u32)
        requires in_lists { list < length self.old.lists }
        requires in_keys { key < length self.old.deficits }
        requires unlisted { IsUnlisted self.old.lists key }
        ensures { self.new ≡ record self.old {
          lists = slice_set self.old.lists list (with_old_key (lists_at self.old.lists list) key);
        } }
    {
        self.links.put_last(list, Side::Old, key);
        self.homes[key as usize] = Some(Home {
            list,
            side: Side::Old,
        });
    }

    /// Sets the deficit of a key that is on no list to its quantum, and puts the key last on the new list of
    /// a rotation. Constant time.
    pub fn add_fresh(&mut self, list: u32, key: u32)
        requires in_lists { list < length self.old.lists }
        requires in_keys { key < length self.old.deficits }
        requires unlisted { IsUnlisted self.old.lists key }
        ensures { self.new ≡ record self.old {
          lists = slice_set self.old.lists list (with_new_key (lists_at self.old.lists list) key);
          deficits = slice_set self.old.deficits key (pos (quantum_at self.old.quanta key));
        } }
    {
        self.reset(key);
        self.add_new(list, key);
    }

    /// Sets the quantum, at least 1, of a key. Its deficit is unchanged.
    pub fn set_quantum(&mut self, key: u32, quantum: u32)
        requires in_keys { key < length self.old.deficits }
        requires positive { 1 ≤ quantum }
        ensures { self.new ≡ record self.old { quanta = slice_set self.old.quanta key quantum } }
    {
        self.quanta[key as usize] = quantum;
    }

    /// Subtracts an amount from the deficit of a key. The deficit must not fall below -2^62.
    pub fn charge(&mut self, key: u32, amount: u32)
        requires in_keys { key < length self.old.deficits }
        requires low { negsuc (2 ^ 62 - 1) ≤ℤ (deficit_at self.old.deficits key -ℤ pos amount) }
        ensures { self.new ≡ record self.old {
          deficits = slice_set self.old.deficits key (deficit_at self.old.deficits key -ℤ pos amount);
        } }
    {
        self.deficits[key as usize] -= i64::from(amount);
    }

    /// Adds an amount to the deficit of a key. The deficit must stay below 2^32.
    pub fn pay_back(&mut self, key: u32, amount: u32)
        requires in_keys { key < length self.old.deficits }
        requires high { (deficit_at self.old.deficits key +ℤ pos amount) ≤ℤ pos (2 ^ 32 - 1) }
        ensures { self.new ≡ record self.old {
          deficits = slice_set self.old.deficits key (deficit_at self.old.deficits key +ℤ pos amount);
        } }
    {
        self.deficits[key as usize] += i64::from(amount);
    }

    /// Lowers the deficit of a key to `most`, at least -2^62, if it is above that.
    pub fn lower(&mut self, key: u32, most: i64)
        requires in_keys { key < length self.old.deficits }
        requires low { negsuc (2 ^ 62 - 1) ≤ℤ most }
        ensures { self.new ≡ record self.old {
          deficits = slice_set self.old.deficits key (lesser (deficit_at self.old.deficits key) most);
        } }
    {
        let deficit = self.deficits[key as usize];
        self.deficits[key as usize] = if deficit <= most { deficit } else { most };
    }

    /// Sets the deficit of a key to its quantum.
    pub fn reset(&mut self, key: u32)
        requires { key < length self.old.deficits }
        ensures { self.new ≡ record self.old {
          deficits = slice_set self.old.deficits key (pos (quantum_at self.old.quanta key));
        } }
    {
        self.deficits[key as usize] = i64::from(self.quanta[key as usize]);
    }

    /// Takes a key off its list, if it is on one. Constant time.
    pub fn remove(&mut self, key: u32)
        requires { key < length self.old.deficits }
        ensures { self.new ≡ record self.old { lists = map (λ r. without_key r key) self.old.lists } }
    {
        match self.homes[key as usize] {
            None => {}
            Some(home) => {
                self.links.remove(home.list, home.side, key);
                self.homes[key as usize] = None;
            }
        }
    }

    /// Returns the rotation that lists a key, and which of its two lists, or None if no rotation lists the
    /// key. Constant time.
    pub fn where_is(&self, key: u32) -> Option<(u32, Side)>
        requires { key < length self.now.deficits }
        ensures none { IfNone result (IsUnlisted self.now.lists key) }
        ensures some { IfSome result (λ place. (place.0 < length self.now.lists) ×
            (has_on self.now.lists place.0 place.1 key ≡ true)) }
    {
        match self.homes[key as usize] {
            None => None,
            Some(home) => Some((home.list, home.side)),
        }
    }

    /// Returns the least key of a rotation, or None if the rotation has no key. It looks at each key of the
    /// rotation.
    pub fn least_key(&self, list: u32) -> Option<u32>
        requires { list < length self.now.lists }
        ensures none { IfNone result (lists_at self.now.lists list ≡ no_keys) }
        ensures listed { IfSome result (λ key. has_key (lists_at self.now.lists list) key ≡ true) }
        ensures least { IfSome result (λ key. (other : ℕ) →
            has_key (lists_at self.now.lists list) other ≡ true → key ≤ other) }
        ensures below { IfSome result (λ key. key < length self.now.deficits) }
    {
        let keys = self.deficits.len() as u32;
        let old = self.links.least_key(list, Side::Old, keys);
        let least = self.links.least_key(list, Side::New, old);
        if least < keys { Some(least) } else { None }
    }

    /// Returns the number of quanta that lift the deficit of a key above 0.
    fn need(&self, key: u32) -> u64
        requires { key < length self.now.deficits }
        ensures need { result ≡ need_at self.now key }
        ensures within { result < 2 ^ 63 }
    {
        need_of(self.deficits[key as usize], self.quanta[key as usize])
    }

    /// Returns the scan with one more key of a list.
    fn scan_key(&self, side: Side, key: u32, ready: &[bool], found: Found) -> Found
        requires in_keys { key < length self.now.deficits }
        requires ready { length ready.now ≡ length self.now.deficits }
        requires small { found.count < 2 ^ 40 }
        ensures found { (order : ℕ → ℕ) (seen : List ℕ) → IsFound found (is_ready ready.now) order seen →
            IsRoundOn order (need_at self.now) side (key ∷ []) →
            IsFound result (is_ready ready.now) order (seen ++ key ∷ []) }
        ensures count { result.count ≡ found.count + 1 }
    {
        let rank = self.need(key) + first_round_of(side);
        scanned(found, key, rank, ready[key as usize])
    }

    /// Scans one list from its first key on, and returns the scan.
    fn scan_list(&self, list: u32, side: Side, ready: &[bool], start: Found) -> Found
        requires in_lists { list < length self.now.lists }
        requires ready { length ready.now ≡ length self.now.deficits }
        requires small { start.count ≤ 2 ^ 33 }
        ensures found { (order : ℕ → ℕ) (seen : List ℕ) → IsFound start (is_ready ready.now) order seen →
            IsRoundOn order (need_at self.now) side (keys_at self.now.lists list side) →
            IsFound result (is_ready ready.now) order (seen ++ keys_at self.now.lists list side) }
        ensures count { result.count ≡ start.count + length (keys_at self.now.lists list side) }
        ensures few { length (keys_at self.now.lists list side) < 2 ^ 32 }
        ensures disjoint { AreDisjoint (record { lists = self.now.lists; keys = length self.now.deficits }) }
    {
        let mut found = start;
        let mut next = self.links.first(list, side);
        while let Some(key) = next {
            found = self.scan_key(side, key, ready, found);
            next = self.links.after(key);
        }
        found
    }

    /// Takes the first key off a list, and puts it last on old if it stays.
    fn move_first(&mut self, list: u32, side: Side, key: u32, stays: bool)
        requires in_lists { list < length self.old.lists }
        requires first { first_of (keys_at self.old.lists list side) ≡ Some key }
        ensures moved { self.new ≡ record self.old {
          lists = passed_first self.old.lists list side key stays;
        } }
        ensures below { key < length self.old.deficits }
    {
        self.links.take_first(list, side);
        self.homes[key as usize] = None;
        if stays {
            self.links.put_last(list, Side::Old, key);
            self.homes[key as usize] = Some(Home {
                list,
                side: Side::Old,
            });
        }
    }

    /// Raises the deficit of a key by one quantum in each of `visits` visits, until the deficit is above 0.
    fn raise(&mut self, key: u32, visits: u64)
        requires { key < length self.old.deficits }
        ensures { self.new ≡ record self.old {
          deficits = slice_set self.old.deficits key
              (raised (deficit_at self.old.deficits key) (quantum_at self.old.quanta key) visits);
        } }
    {
        let at = key as usize;
        self.deficits[at] = raised(self.deficits[at], self.quanta[at], visits);
    }

    /// Passes the first key of a list: its deficit rises by its share, and it goes last on old or leaves.
    fn pass_first(&mut self, list: u32, side: Side, key: u32, share: Share)
        requires in_lists { list < length self.old.lists }
        requires first { first_of (keys_at self.old.lists list side) ≡ Some key }
        ensures { self.new ≡ record {
          lists = passed_first self.old.lists list side key share.stays;
          deficits = slice_set self.old.deficits key
              (raised (deficit_at self.old.deficits key) (quantum_at self.old.quanta key) share.visits);
          quanta = self.old.quanta;
        } }
    {
        self.move_first(list, side, key, share.stays);
        self.raise(key, share.visits);
    }

    /// Passes the first key of a list, which is at place `i` of the way, by its share in this course. Returns
    /// the last key so far that is before the winner and stays; `last` is the one before this call.
    fn pass_key(
        &mut self,
        list: u32,
        course: Course,
        side: Side,
        i: usize,
        ready: &[bool],
        last: Option<u32>,
    ) -> Option<u32>
        requires in_lists { list < length self.old.lists }
        requires ready { length ready.now ≡ length self.old.deficits }
        requires some { (key : ℕ) × (first_of (keys_at self.old.lists list side) ≡ Some key) }
        requires round { (round place : ℕ) → course ≡ Course.Later round place → round ≤ 2 ^ 63 }
        ensures passed { (key : ℕ) → first_of (keys_at self.old.lists list side) ≡ Some key →
            self.new ≡ passed_key self.old course list side i (is_ready ready.now key) key }
        ensures last { (key : ℕ) → first_of (keys_at self.old.lists list side) ≡ Some key →
            result ≡ last_after course side i (need_at self.old key) (is_ready ready.now key) key last }
    {
        match self.links.first(list, side) {
            None => last,
            Some(key) => {
                let need = self.need(key);
                let share = course.share(side, i, need, ready[key as usize]);
                self.pass_first(list, side, key, share);
                last_kept(last, key, share.stays, i < course.place())
            }
        }
    }

    /// Passes the first `count` keys of a rotation, the old list first, each by its share in this course.
    /// Returns the last of these keys that is before the winner and stays, and the number of keys passed.
    fn pass(
        &mut self,
        list: u32,
        course: Course,
        olds: usize,
        count: usize,
        ready: &[bool],
    ) -> Passed
        requires in_lists { list < length self.old.lists }
        requires ready { length ready.now ≡ length self.old.deficits }
        requires disjoint { AreDisjoint (record { lists = self.old.lists; keys = length self.old.deficits }) }
        requires olds { olds ≡ length (passed_olds course (lists_at self.old.lists list).old) }
        requires count { count ≤ length (way course (lists_at self.old.lists list)) }
        requires round { (round place : ℕ) → course ≡ Course.Later round place → round ≤ 2 ^ 63 }
        requires shares { (visits : ℕ → ℕ) × (stay : ℕ → Bool) ×
            SharesAre course self.old ready.now list visits stay }
        ensures passed { (visits : ℕ → ℕ) (stay : ℕ → Bool) →
            SharesAre course self.old ready.now list visits stay →
            HasPassed course self.old list visits stay count self.new }
        ensures last { (visits : ℕ → ℕ) (stay : ℕ → Bool) →
            SharesAre course self.old ready.now list visits stay →
            result.last ≡ last_before course (lists_at self.old.lists list) stay count }
        ensures count { result.count ≡ count }
    {
        let mut passed = Passed {
            last: None,
            count: 0,
        };
        for i in 0..count {
            passed.last = self.pass_key(list, course, side_at(olds, i), i, ready, passed.last);
            passed.count += 1;
        }
        passed
    }

    /// Rotates the old list: it begins with `key`, and the keys up to `before`, the key just before it, go
    /// last in their order.
    fn rotate_old(&mut self, list: u32, before: u32, key: u32)
        requires in_lists { list < length self.old.lists }
        requires follows { (ys : List ℕ) × (zs : List ℕ) ×
            (keys_at self.old.lists list Old ≡ ys ++ before ∷ (key ∷ zs)) }
        ensures { (ys zs : List ℕ) → keys_at self.old.lists list Old ≡ ys ++ before ∷ (key ∷ zs) →
            self.new ≡ record self.old {
              lists = with_keys self.old.lists list Old (key ∷ (zs ++ (ys ++ before ∷ [])));
            } }
    {
        self.links.rotate(list, before, key);
    }

    /// Rebuilds the lists for a winner in at most one pass, and returns the number of keys that were passed.
    fn settle(&mut self, list: u32, best: Best, olds: usize, count: usize, ready: &[bool]) -> usize
        requires in_lists { list < length self.old.lists }
        requires ready { length ready.now ≡ length self.old.deficits }
        requires disjoint { AreDisjoint (record { lists = self.old.lists; keys = length self.old.deficits }) }
        requires olds { olds ≡ length (lists_at self.old.lists list).old }
        requires count { count ≡ length (in_order (lists_at self.old.lists list)) }
        requires won { IsWon best (is_ready ready.now) (need_at self.old) (lists_at self.old.lists list) }
        ensures picked { WasPickedFrom self.old list (picked_at self.old ready.now list) self.new }
        ensures winner { (picked_at self.old ready.now list).winner ≡ Some best.key }
        ensures most { result ≤ count }
    {
        if best.rank == 0 {
            // The winner is on new, so the old list keeps its first key, and the last key before the winner
            // is not needed.
            return self
                .pass(list, Course::AtOnce, 0, best.place - olds, ready)
                .count;
        }
        let course = Course::Later {
            round: best.rank,
            place: best.place,
        };
        let passed = self.pass(list, course, olds, count, ready);
        if let Some(before) = passed.last {
            self.rotate_old(list, before, best.key);
        }
        passed.count
    }

    /// Picks in closed form. One scan finds the winner and one pass rebuilds the lists: each key is scanned
    /// once and moved at most once.
    fn pick_at_once(&mut self, list: u32, ready: &[bool]) -> Pick
        requires in_lists { list < length self.old.lists }
        requires ready { length ready.now ≡ length self.old.deficits }
        ensures picked { HasPicked self.old ready.now list result.winner self.new }
        ensures at_least { length (in_order (lists_at self.old.lists list)) ≤ result.steps }
        ensures at_most { result.steps ≤ 2 * length (in_order (lists_at self.old.lists list)) + 2 }
        ensures few { length (in_order (lists_at self.old.lists list)) < 2 ^ 33 }
    {
        let nothing = Found {
            best: None,
            count: 0,
        };
        let olds = self.scan_list(list, Side::Old, ready, nothing);
        let all = self.scan_list(list, Side::New, ready, olds);
        match all.best {
            None => {
                let passed = self.pass(list, Course::Nobody, olds.count, all.count, ready);
                Pick {
                    winner: None,
                    steps: all.count + passed.count,
                }
            }
            Some(best) => {
                let moved = self.settle(list, best, olds.count, all.count, ready);
                Pick {
                    winner: Some(best.key),
                    steps: all.count + moved,
                }
            }
        }
    }

    /// Makes one visit of the loop of algorithm 3: to the first key of new or, if new is empty, to the first
    /// key of old. If its deficit is 0 or less, the key gets a quantum and goes last on old. If its deficit
    /// is above 0, the key wins if it is ready; else it moves from new to old, or from old out of the
    /// rotation.
    fn visit(&mut self, list: u32, ready: &[bool]) -> VisitEnd
        requires in_lists { list < length self.old.lists }
        requires ready { length ready.now ≡ length self.old.deficits }
        ensures visited { HasVisited self.old list (first_visit self.old ready.now list) self.new }
        ensures end { EndsAs (first_visit self.old ready.now list) result }
        ensures disjoint { AreDisjoint (record { lists = self.old.lists; keys = length self.old.deficits }) }
        ensures positive { (key : ℕ) → 1 ≤ quantum_at self.old.quanta key }
    {
        let (side, key) = match self.links.first(list, Side::New) {
            Some(key) => (Side::New, key),
            None => match self.links.first(list, Side::Old) {
                Some(key) => (Side::Old, key),
                None => return VisitEnd::Done(None),
            },
        };
        let at = key as usize;
        if self.deficits[at] <= 0 {
            self.deficits[at] += i64::from(self.quanta[at]);
            self.move_first(list, side, key, true);
            VisitEnd::GoesOn
        } else if ready[at] {
            VisitEnd::Done(Some(key))
        } else {
            self.move_first(list, side, key, matches!(side, Side::New));
            VisitEnd::GoesOn
        }
    }

    /// Returns the key that is alone on a rotation, or None if the rotation has no key, has others too, or
    /// has its only key on the new list.
    fn only_old(&self, list: u32) -> Option<u32>
        requires { list < length self.now.lists }
        ensures alone { IfSome result (λ key. IsOnlyOld (lists_at self.now.lists list) key) }
        ensures below { IfSome result (λ key. key < length self.now.deficits) }
        ensures disjoint { AreDisjoint (record { lists = self.now.lists; keys = length self.now.deficits }) }
        ensures positive { (key : ℕ) → 1 ≤ quantum_at self.now.quanta key }
    {
        let None = self.links.first(list, Side::New) else {
            return None;
        };
        let key = self.links.first(list, Side::Old)?;
        let None = self.links.after(key) else {
            return None;
        };
        Some(key)
    }

    /// Makes the first visits of the loop in one calculation, if a key is alone on a rotation, on its old
    /// list, and owes: each of these visits gives it a quantum. Returns their number, at most `MOST_VISITS`.
    fn pay_only(&mut self, list: u32) -> usize
        requires { list < length self.old.lists }
        ensures paid { HasPaidOnly self.old list result self.new }
        ensures most { result ≤ 32 }
        ensures disjoint { AreDisjoint (record { lists = self.old.lists; keys = length self.old.deficits }) }
        ensures positive { (key : ℕ) → 1 ≤ quantum_at self.old.quanta key }
    {
        let Some(key) = self.only_old(list) else {
            return 0;
        };
        let visits = self.need(key).min(MOST_VISITS as u64);
        self.raise(key, visits);
        visits as usize
    }

    /// Picks the key whose turn it is, and leaves the rotation as the paper's loop does (algorithm 3 of
    /// "Ending the Anomaly", USENIX ATC 2017). `ready` has one entry for each key. The winner stays first on
    /// its list, with a deficit above 0.
    ///
    /// The loop makes at most `MOST_VISITS` visits; then the pick goes on in closed form. Each visit but the
    /// last gives a quantum, or takes a key off new or off the rotation. A pick that ends within the loop
    /// takes as many steps as it makes visits, whatever the number of listed keys (`cheap`). The visits that
    /// pay a key that is alone on old are counted, but made in one calculation.
    pub fn pick(&mut self, list: u32, ready: &[bool]) -> Pick
        requires in_lists { list < length self.old.lists }
        requires ready { length ready.now ≡ length self.old.deficits }
        ensures winner { result.winner ≡ (picked_at self.old ready.now list).winner }
        ensures lists { self.new.lists ≡
            slice_set self.old.lists list (picked_at self.old ready.now list).lists }
        ensures deficits { (key : ℕ) → deficit_at self.new.deficits key ≡ deficit_at self.old.deficits key +ℤ
            pos ((picked_at self.old ready.now list).quanta key * quantum_at self.old.quanta key) }
        ensures keys { length self.new.deficits ≡ length self.old.deficits }
        ensures quanta { self.new.quanta ≡ self.old.quanta }
        ensures below { IfSome result.winner (λ key. key < length self.old.deficits) }
        ensures listed { IfSome result.winner (λ key. has_key (lists_at self.old.lists list) key ≡ true) }
        ensures is_ready { IfSome result.winner (λ key. is_ready ready.now key ≡ true) }
        ensures capped { (key : ℕ) →
            deficit_at self.old.deficits key ≤ℤ pos (quantum_at self.old.quanta key) →
            deficit_at self.new.deficits key ≤ℤ pos (quantum_at self.old.quanta key) }
        ensures at_most { result.steps ≤ 32 + 2 * length (in_order (lists_at self.old.lists list)) + 2 }
        ensures cheap { most_visits self.old ready.now list ≤ 32 →
            result.steps ≤ most_visits self.old ready.now list }
        ensures visits { MatchOption (visits_within 32 self.old ready.now list) (32 ≤ result.steps)
            (λ visits. result.steps ≡ visits) }
    {
        let mut steps = self.pay_only(list);
        for _ in steps..MOST_VISITS {
            steps += 1;
            if let VisitEnd::Done(winner) = self.visit(list, ready) {
                return Pick { winner, steps };
            }
        }
        let at_once = self.pick_at_once(list, ready);
        Pick {
            winner: at_once.winner,
            steps: steps + at_once.steps,
        }
    }
}

//! A deal and its seats.
ghost use Rattle.std.specs.Prelude.{◌≡◌, ◌≤◌, ◌<◌, ◌++◌, ℕ, true, false, List, Any, length, map, min, All, None, flat_map, option_to_list, IfOk, IsPermutation};
ghost use Rattle.std.specs.List.{range_with_len, AllByRecursion};
ghost use Rattle.crew.specs.Draws.{PlacesRise};
ghost use Rattle.crew.specs.Limits.{piece_limit, seat_limit};
ghost use Rattle.crew.specs.Seats.{BeginsWithAll, DealValue, Draws, DrawsOnce, SeatValue, IsSeatOf, drawn_by, is_finished, new_seats, number_of, sight_of};

use crate::law::{Draw, Gather, Hand, Law, Size, View};
use atomic_table::{Seat as Token, Shared, Table};
use std::alloc::{AllocError, Global};
use std::marker::Model;

/// Pieces of work, numbered from 0, which seats draw one by one. Threads share a deal by `&`, and each has a seat of its
/// own. The next number is a ticket, taken from one shared word by fetch-and-add (Gottlieb, Lubachevsky and Rudolph,
/// 1983): nobody waits for another, and no piece is drawn twice.
#[derive(Drop)]
pub struct Deal {
    table: Table<(), View, Size, Law, Global>,
    pieces: u64,
}

impl Model for Deal {
    ghost use Rattle.std.specs.Prelude.{◌≡◌, ◌≤◌};
    ghost use Rattle.crew.specs.Limits.{piece_limit, seat_limit};
    ghost use Rattle.crew.specs.Seats.{DealValue};

    ghost Value = { DealValue };

    ghost view = { λ d. record { table = d.table.shared.table_id; pieces = d.pieces; seats = d.table.shared.key.seats } };

    ghost invariant = { λ d. (d.table.shared.table_id.words ≡ 1) × (d.table.shared.table_id.slots ≡ 0)
        × (d.table.shared.key.pieces ≡ d.pieces) × (d.pieces ≤ piece_limit) × (1 ≤ d.table.shared.key.seats)
        × (d.table.shared.key.seats ≤ seat_limit) };
}

/// The right to draw from one deal, which may be moved from thread to thread. A deal's seats are numbered from 0.
#[derive(Drop)]
pub struct Seat {
    token: Token<(), View>,
    number: u64,
    pieces: u64,
    // whether the seat's last draw got none
    finished: bool,
}

impl Model for Seat {
    ghost use Rattle.std.specs.Prelude.{◌≡◌, [], ◌∷◌, length, ltb};
    ghost use Rattle.crew.specs.Law.{only, sight};
    ghost use Rattle.crew.specs.Seats.{SeatValue};

    ghost Value = { SeatValue };

    ghost view = { λ s. record { table = s.token.table_id; pieces = s.pieces; number = s.number; seen = (only s.token.me.0).seen } };

    ghost invariant = { λ s. (s.token.me ≡ (sight s.number (only s.token.me.0).seen ∷ [], []))
        × (s.finished ≡ ltb s.pieces (length (only s.token.me.0).seen)) };
}

/// What a deal tells when it is closed.
#[derive(Clone, Copy, Debug, PartialEq, Eq, Drop)]
pub struct Dealt {
    /// How many pieces were drawn: those of the numbers below it.
    pub drawn: u64,
}

impl Deal {
    /// A deal of `pieces` pieces, at most [`MAX_PIECES`](crate::MAX_PIECES), and its `seats` seats, 1 to
    /// [`MAX_SEATS`](crate::MAX_SEATS), in the order of their numbers. No seat has seen a draw. Err where there is no
    /// memory for the deal or for the list of seats.
    pub fn new(alloc: Global, pieces: u64, seats: u64) -> Result<(Deal, Vec<Seat>), AllocError>
        requires pieces { pieces ≤ piece_limit }
        requires seats { (1 ≤ seats) × (seats ≤ seat_limit) }
        ensures deal { IfOk result (λ r. (r.0.pieces ≡ pieces) × (r.0.seats ≡ seats)) }
        ensures seats { IfOk result (λ r. r.1.items ≡ new_seats r.0) }
    {
        let (table, mut keeper) = Table::of_words(alloc, &[0], &Size { pieces, seats })?;
        let mut all = Vec::with_capacity(alloc, seats as usize)?;
        for number in 0..seats {
            let token = table.shared.split_seat::<Hand>(&mut keeper);
            all.push_reserved(Seat {
                token,
                number,
                pieces,
                finished: false,
            });
        }
        Ok((Deal { table, pieces }, all))
    }

    /// The number of the next piece, drawn for the seat, which is one of this deal; or None where all pieces are drawn.
    /// A seat that was answered None draws no more, and is answered None again. It never waits.
    #[tactic(auto, using(crate::proofs::SeatLemmas::drawn_once))]
    pub fn next(&self, seat: &mut Seat) -> Option<u64>
        requires { IsSeatOf self.now seat.old }
        ensures draws { Draws seat.old result seat.new }
        ensures same { IsSeatOf self.now seat.new × (seat.new.number ≡ seat.old.number) }
        ensures drawn { drawn_by seat.new ≡ drawn_by seat.old ++ option_to_list result }
        ensures finished { result ≡ None → is_finished seat.new ≡ true }
    {
        if seat.finished {
            return None;
        }
        self.draw(seat)
    }

    // The one step of the rule, by a seat that is not finished.
    fn draw(&self, seat: &mut Seat) -> Option<u64>
        requires seat { IsSeatOf self.now seat.old }
        requires early { is_finished seat.old ≡ false }
        ensures { DrawsOnce seat.old result seat.new }
    {
        let place = self.table.shared.fetch_add::<Draw>(&mut seat.token, 0, 1);
        if place < seat.pieces {
            return Some(place);
        }
        seat.finished = true;
        None
    }

    /// Ends the deal. It asks for all of its seats, in any order, and says that together they drew the pieces of the
    /// numbers below `drawn`, each once. These are all pieces where some seat was answered None.
    pub fn close(self, seats: Vec<Seat>) -> Dealt
        requires seats { All (IsSeatOf self) seats.items }
        requires all { IsPermutation (map number_of seats.items) (range_with_len 0 self.seats) }
        ensures history { (history : List ℕ) × BeginsWithAll history seats.items × (result.drawn ≡ min (length history) self.pieces) }
        ensures all { Any (λ seat. is_finished seat ≡ true) seats.items → result.drawn ≡ self.pieces }
        ensures together { IsPermutation (flat_map drawn_by seats.items) (range_with_len 0 result.drawn) }
    {
        let Deal { table, pieces } = self;
        let keeper = gathered(&table.shared, seats);
        let closed = table.close_with(keeper);
        let draws = closed.word(0);
        closed.free();
        Dealt {
            drawn: draws.min(pieces),
        }
    }
}

// One token, which has the sights of all seats.
fn gathered(shared: &Shared<(), View, Size, Law>, seats: Vec<Seat>) -> Token<(), View>
    requires table { shared.now.table_id.words ≡ 1 }
    requires seats { (1 ≤ length seats.items) × All (λ seat. seat.table ≡ shared.now.table_id) seats.items }
    ensures { (result.table_id ≡ shared.now.table_id) × (result.me.0 ≡ map sight_of seats.items) }
{
    let mut rest = seats.into_iter();
    let Some(first) = rest.next() else {
        unreachable!()
    };
    let Seat { token, .. } = first;
    let mut keeper = token;
    for seat in rest {
        let Seat { token, .. } = seat;
        shared.join_seat::<Gather>(&mut keeper, token);
    }
    keeper
}

impl Seat {
    /// The seat's number in its deal. It never changes.
    pub fn number(&self) -> u64
        ensures { result ≡ self.now.number }
    {
        self.number
    }
}

/// What a seat drew rises, and is below the number of pieces; so no seat drew a piece twice.
pub fn draws_rise()
    ensures rising { (seat : SeatValue) → PlacesRise (drawn_by seat) }
    ensures below { (seat : SeatValue) → AllByRecursion (λ piece. piece < seat.pieces) (drawn_by seat) }
{}

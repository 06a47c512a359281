// What stands piece by piece from a place on up to the end of a line.
ghost use Rattle.std.specs.Prelude.{◌≡◌, ◌+◌, ◌<◌, ◌≤◌, List, [], ◌∷◌, ◌++◌, length, take, ⊤};
ghost use Rattle.script.specs.Series.{series};

use crate::words::Words;
use std::alloc::AllocError;
use std::marker::Model;

// Up to N pieces, seen as their list. The places past them are empty, so that the list gives them back.
pub struct Series<T: Item, const N: usize> {
    pieces: [T; N],
    count: usize,
}

impl<T: Item, const N: usize> Model for Series<T, N> {
    ghost use Rattle.std.specs.Prelude.{◌≡◌, ◌≤◌, List, length, take};
    ghost use Rattle.std.proofs.Common.{sym, subst, length-take-le};
    ghost use Rattle.script.specs.Series.{array_of};

    ghost Value = { List T };

    ghost view = { λ s. take s.count s.pieces };

    ghost invariant = { λ s. (s.count ≤ N) × (length s.pieces ≡ N) × (s.pieces ≡ array_of N T.empty (take s.count s.pieces)) };

    ghost inverse = { λ xs. record { pieces = array_of N T.empty xs; count = length xs } };

    ghost inverse_ok = { λ s h i. record {
      pieces = sym h.2 i;
      count = length-take-le s.count s.pieces (subst (λ n. s.count ≤ n) (sym h.1) h.0) i;
    } };
}

impl<T: Item, const N: usize> Clone for Series<T, N> {
    ghost is_clone = { λ s t. t ≡ s };

    ghost is_infallible = { λ _. ⊤ };

    fn clone(&self) -> Result<Self, AllocError> {
        Ok(*self)
    }
}

impl<T: Item, const N: usize> Copy for Series<T, N> {}

impl<T: Item, const N: usize> Series<T, N> {
    // No piece.
    pub fn new() -> Self
        ensures { result ≡ [] }
    {
        Series {
            pieces: [T::empty(); N],
            count: 0,
        }
    }

    // One piece more, behind the others.
    pub fn push(&mut self, piece: T)
        requires { length self.old < N }
        ensures { self.new ≡ self.old ++ piece ∷ [] }
    {
        self.pieces[self.count] = piece;
        self.count += 1;
    }

    pub fn as_slice(&self) -> &[T]
        ensures { result.now ≡ self.now }
    {
        &self.pieces[..self.count]
    }
}

// What may stand in a series: it has a value for the places that are empty.
pub trait Item: Copy + Drop {
    ghost empty: { Self };

    fn empty() -> Self
        ensures { result ≡ empty };
}

impl Item for f64 {
    ghost use Rattle.std.specs.Float.{binary64};
    ghost use Rattle.std.specs.Float.Ieee.{of_bits};

    ghost empty = { of_bits binary64 0 };

    fn empty() -> f64 {
        0.0
    }
}

impl Item for u8 {
    ghost empty = { 0 };

    fn empty() -> u8 {
        0
    }
}

// What a series is read of.
pub(crate) trait Piece: Item {
    ghost use Rattle.script.specs.Words.{Reader};

    ghost reader: { Reader Self };

    fn read(words: &mut Words<'_>) -> Self
        ensures { reader words.old ≡ (result, words.new) };
}

// Pieces up to the end of the line, N at most.
pub(crate) fn read_series<T: Piece, const N: usize>(words: &mut Words<'_>) -> Series<T, N>
    ensures { series T.reader N words.old ≡ (result, words.new) }
{
    let mut series = Series::new();
    for _ in 0..N {
        if words.is_over() {
            break;
        }
        series.push(T::read(words));
    }
    series
}

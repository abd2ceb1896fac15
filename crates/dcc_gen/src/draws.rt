//! Numbers that look random.

ghost use Rattle.std.specs.Prelude.{◌≡◌, ℕ, ◌<◌, ◌≤◌, [], ◌∷◌, IfOk, All, map, vec_len};
ghost use Rattle.std.specs.List.{flat_map};
ghost use Rattle.dcc_gen.specs.Draws.{AreDrawn};
ghost use Rattle.dcc_gen.specs.Pieces.{draws_of, IsInRange};

use crate::piece::Piece;
use std::alloc::{AllocError, Global};

/// D. E. Knuth's MMIX generator.
const MULTIPLIER: u64 = 6_364_136_223_846_793_005;

const INCREMENT: u64 = 1_442_695_040_888_963_407;

/// A linear congruential generator.
#[derive(Drop)]
pub struct Draws {
    /// What the next number is made of; at first the seed.
    pub state: u64,
}

impl Draws {
    // The next number, below `choices`.
    fn number(&mut self, choices: u32) -> u16
        requires some { 0 < choices }
        requires few { choices ≤ 65536 }
        ensures drawn { AreDrawn ((choices, result) ∷ []) self.old.state self.new.state }
        ensures below { result < choices }
    {
        self.state = self.state.wrapping_mul(MULTIPLIER).wrapping_add(INCREMENT);
        ((self.state >> 33) % u64::from(choices)) as u16
    }

    // The next piece, of one of the first `kinds` kinds.
    fn piece(&mut self, kinds: u32) -> Piece
        requires some { 0 < kinds }
        requires known { kinds ≤ 12 }
        ensures drawn { AreDrawn (draws_of kinds result) self.old.state self.new.state }
        ensures in_range { IsInRange result }
    {
        match self.number(kinds) {
            0 => Piece::SetAx(self.number(65_536)),
            1 => Piece::AddBx,
            2 => Piece::Exchange,
            3 => Piece::SubtractAx,
            4 => Piece::Negate,
            5 => Piece::Store(self.number(64)),
            6 => Piece::AddWord(self.number(64)),
            7 => Piece::CountUnlessLess,
            8 => Piece::CopyByStack,
            9 => Piece::AddCounts(self.number(16)),
            10 => Piece::PrintAl,
            _ => Piece::Call(self.number(8)),
        }
    }

    /// The next pieces, so many, each of one of the first `kinds` kinds.
    pub(crate) fn pieces(
        &mut self,
        alloc: Global,
        kinds: u32,
        count: u16,
    ) -> Result<Vec<Piece>, AllocError>
        requires some { 0 < kinds }
        requires known { kinds ≤ 12 }
        ensures count { IfOk result (λ pieces. vec_len pieces ≡ count) }
        ensures drawn { IfOk result
            (λ pieces. AreDrawn (flat_map (draws_of kinds) pieces.items) self.old.state self.new.state) }
        ensures in_range { IfOk result (λ pieces. All IsInRange pieces.items) }
    {
        let mut pieces = Vec::new(alloc);
        for _ in 0..count {
            let piece = self.piece(kinds);
            pieces.push(piece)?;
        }
        Ok(pieces)
    }

    /// The next words, so many.
    pub(crate) fn words(&mut self, alloc: Global, count: u16) -> Result<Vec<u16>, AllocError>
        ensures count { IfOk result (λ words. vec_len words ≡ count) }
        ensures drawn { IfOk result
            (λ words. AreDrawn (map (λ word. (65536, word)) words.items) self.old.state self.new.state) }
    {
        let mut words = Vec::new(alloc);
        for _ in 0..count {
            let word = self.number(65_536);
            words.push(word)?;
        }
        Ok(words)
    }
}

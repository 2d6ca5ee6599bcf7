// A line that is put piece by piece: the lent buffer, and the place behind the last piece.
ghost use Rattle.std.specs.Prelude.{[], ◌∷◌, ◌≡◌};
ghost use Rattle.answer_text.specs.Decimal.{decimal};
ghost use Rattle.answer_columns.specs.Lines.{extended};
ghost use Rattle.answer_columns.specs.Pieces.{none_pieces, space_pieces, cell_pieces, pair_pieces};

use answer_text::put::{put_byte, put_bytes, put_pair, put_u64};

#[derive(Drop)]
pub struct Line<'a> {
    pub out: &'a mut [u8],
    pub at: usize,
}

impl Line<'_> {
    #[tactic(auto, unfolding(crate::specs::Lines::extended))]
    pub fn byte(&mut self, b: u8)
        ensures { self.new ≡ extended ((b ∷ []) ∷ []) self.old }
    {
        self.at = put_byte(self.out, self.at, b);
    }

    #[tactic(auto, unfolding(crate::specs::Lines::extended))]
    pub fn bytes(&mut self, text: &[u8])
        ensures { self.new ≡ extended (text.now ∷ []) self.old }
    {
        self.at = put_bytes(self.out, self.at, text);
    }

    #[tactic(auto, unfolding(crate::specs::Lines::extended))]
    pub fn number(&mut self, n: u64)
        ensures { self.new ≡ extended (decimal n ∷ []) self.old }
    {
        self.at = put_u64(self.out, self.at, n);
    }

    // Two numbers with a dot between.
    #[tactic(auto, unfolding(crate::specs::Lines::extended))]
    pub fn pair(&mut self, m: u64, n: u64)
        ensures { self.new ≡ extended (pair_pieces m n) self.old }
    {
        self.at = put_pair(self.out, self.at, m, n);
    }

    // A `-`, which is none.
    pub fn none(&mut self)
        ensures { self.new ≡ extended none_pieces self.old }
    {
        self.byte(b'-');
    }

    pub fn space(&mut self)
        ensures { self.new ≡ extended space_pieces self.old }
    {
        self.byte(b' ');
    }

    // A number and the space behind it.
    pub fn cell(&mut self, n: u64)
        ensures { self.new ≡ extended (cell_pieces n) self.old }
    {
        self.number(n);
        self.space();
    }
}

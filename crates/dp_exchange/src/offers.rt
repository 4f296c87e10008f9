//! What the computers offer in a cycle, kept as bytes.
ghost use Rattle.std.specs.Prelude.{◌≡◌, ◌<◌, length, slice_set};
ghost use Rattle.dp_codec.specs.{IsPlantState, spelling_of};
ghost use Rattle.dp_exchange.specs.OfferTexts.{is_repeated, no_texts};

use arrayvec::ArrayVec;
use dp_codec::write_state;
use dp_machine::Machine;
use std::marker::Model;

/// The version of the spelling in which states are compared, whatever version they came in.
const COMPARED: u8 = 2;

/// A text for each computer, empty where it offered none; a contract sees the three texts.
#[derive(Drop)]
pub(crate) struct Offers {
    texts: [ArrayVec<u8, 4096>; 3],
}

impl Model for Offers {
    ghost use Rattle.std.specs.Prelude.{ℕ, List};

    ghost Value = { List (List ℕ) };

    ghost use Rattle.dp_exchange.specs.OfferTexts.{AreThree, texts_of};

    ghost view = { texts_of };

    ghost invariant = { AreThree };
}

impl Offers {
    pub(crate) fn new() -> Offers
        ensures { result ≡ no_texts }
    {
        Offers {
            texts: [ArrayVec::new(), ArrayVec::new(), ArrayVec::new()],
        }
    }

    pub(crate) fn forget(&mut self)
        ensures { self.new ≡ no_texts }
    {
        self.texts[0].clear();
        self.texts[1].clear();
        self.texts[2].clear();
    }

    /// Keeps the machine's state in place of what this computer offered before.
    pub(crate) fn keep(&mut self, from: u8, m: &Machine)
        requires { from < 3 }
        ensures text { self.new
            ≡ slice_set self.old from (spelling_of m.now.plant 2 m.now.state) }
        ensures state { IsPlantState m.now.plant m.now.state }
        ensures three { length self.old ≡ 3 }
    {
        write_state(m, COMPARED, &mut self.texts[from as usize]);
    }

    /// Whether another computer offered the same as this one.
    #[tactic(auto, unfolding(crate::specs::OfferTexts::is_repeated))]
    pub(crate) fn is_repeated(&self, from: u8) -> bool
        requires { from < 3 }
        ensures { result ≡ is_repeated self.now from }
    {
        let own = self.texts[from as usize].as_slice();
        let [a, b, c] = &self.texts;
        (from != 0 && a.as_slice() == own)
            || (from != 1 && b.as_slice() == own)
            || (from != 2 && c.as_slice() == own)
    }
}

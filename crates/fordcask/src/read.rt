// A card handed in as its bytes with scale, factor and zone: read, and then asked.
ghost use Rattle.std.specs.Prelude.{◌≡◌, Result};
ghost use Rattle.arc.specs.declared.refusal.Refusal.{Refusal};
ghost use Rattle.card_text.specs.declared.Fields.{Fields};
ghost use Rattle.card.specs.Read.{card_read};
ghost use Rattle.fordcask.specs.Entry.{asked};

use arc::{Refusal, Series};
use card::{Card, Reading};

/// What a card answers, and the total of blanks that its numbers start with.
#[derive(Clone, Copy)]
pub struct OnCard<T> {
    pub answer: T,
    pub blanks: u64,
}

/// What a chart's card and an overview's answer together, and the total of blanks of each.
#[derive(Clone, Copy)]
pub struct OnCards<T> {
    pub answer: T,
    pub blanks: u64,
    pub overview_blanks: u64,
}

// Questions that write into a lent buffer read the card themselves: no clause here could say what a question leaves there.
/// Reads a card and asks it. Refuses as reading does, then as the question does.
pub fn on_card<T: Copy, F: FnOnce(Card) -> Result<T, Refusal>>(
    series: Series,
    card: &[u8],
    question: F,
) -> Result<OnCard<T>, Refusal>
    requires { F.IsAlwaysCallable question }
    ensures { (answer : Fields → Result T Refusal)
        → ((k : Fields) (r : Result T Refusal) → F.post question k r → r ≡ answer k)
        → result ≡ asked (card_read series card.now) answer }
{
    let Reading { card, blanks } = Card::read(series, card)?;
    let answer = question(card)?;
    Ok(OnCard { answer, blanks })
}

ghost use Rattle.std.specs.Prelude.{◌≡◌, ◌+◌, ◌≤◌, min, [], ◌++◌, length, drop, None};
ghost use Rattle.input.specs.Inputs.{meaning, first, passed, shown, unseen, known, Knows};

use super::{Input, WINDOW};
use source::{End, Source};

impl<S: Source> Input<S> {
    /// The input that the source gives: the window shows none of it yet.
    #[tactic(auto, unfolding(crate::specs::Inputs::meaning, crate::specs::Inputs::shown, crate::specs::Inputs::known))]
    pub fn new(source: S) -> Self
        ensures means { meaning S.Source.meaning result ≡ first 16777216 (S.Source.meaning source) }
        ensures shows { shown result ≡ [] }
        ensures knows { known result ≡ None }
    {
        Input {
            source,
            window: [0; WINDOW],
            from: 0,
            to: 0,
            at: 0,
            end: None,
        }
    }

    /// What the window shows: the first bytes of what is left.
    #[tactic(auto, unfolding(crate::specs::Inputs::meaning, crate::specs::Inputs::shown, crate::specs::Inputs::unseen))]
    pub fn view(&self) -> &[u8]
        ensures shows { result.now ≡ shown self.now }
        ensures front { (meaning S.Source.meaning self.now).left ≡ result.now ++ unseen S.Source.meaning self.now }
    {
        &self.window[self.from..self.to]
    }

    /// Passes over the first n bytes that the window shows, or all of them.
    #[tactic(auto, unfolding(crate::specs::Inputs::meaning, crate::specs::Inputs::shown, crate::specs::Inputs::known))]
    pub fn consume(&mut self, n: usize)
        ensures means { meaning S.Source.meaning self.new ≡ passed (min n (length (shown self.old))) (meaning S.Source.meaning self.old) }
        ensures shows { shown self.new ≡ drop (min n (length (shown self.old))) (shown self.old) }
        ensures knows { known self.new ≡ known self.old }
    {
        let k = n.min(self.to - self.from);
        self.from += k;
        self.at += k;
    }

    /// The input's end, once it is known: the window then shows all that is left.
    #[tactic(auto, unfolding(crate::specs::Inputs::known))]
    pub fn end(&self) -> Option<End>
        ensures is { result ≡ known self.now }
        ensures means { Knows S.Source.meaning self.now result }
    {
        self.end
    }

    /// The offset in the input of the first byte left.
    #[tactic(auto, unfolding(crate::specs::Inputs::meaning))]
    pub fn offset(&self) -> u32
        ensures is { result ≡ (meaning S.Source.meaning self.now).offset }
        ensures within { result + length (meaning S.Source.meaning self.now).left ≤ 16777216 }
    {
        self.at as u32
    }
}

//! A chain of steps, and the items that it works on.

ghost use Rattle.std.specs.Prelude.{◌≡◌, ℕ, ◌+◌, ◌<◌, IfOk, IfErr};
ghost use Rattle.stage_graph.specs.Steps.{value_of};

/// An item with a number, and a count of the steps that are done to it.
pub trait Named: Drop {
    ghost number_of: { Self → ℕ };

    ghost done_of: { Self → ℕ };

    /// The item's number in its run, from 0.
    fn number(&self) -> usize
        ensures { result ≡ number_of self.now };

    /// How many steps are done.
    fn done(&self) -> usize
        ensures { result ≡ done_of self.now };
}

/// What a gate is notified of about an item: how many stages come before those of its floor, its number, and the one
/// after it. For an item that is a chunk of several, the number of the first of them, and the one after the last.
#[derive(Clone, Copy)]
pub struct Span {
    pub stages: usize,
    pub first: usize,
    pub end: usize,
}

/// Steps that are done to items, one after another.
///
/// Each step is a definition: `step k` is the value of an item before it and gives the value after it. An item
/// with k steps done holds the value of the first k steps of its own input, which is `input_at` of its number.
/// This is the law `holds`, which an implementation proves of its item's type.
pub trait Chain {
    type Item: Named;

    /// What an item's content is seen as. No value of it need be made.
    type Value;

    ghost steps: { ℕ };

    ghost step: { ℕ → Self.Value → Self.Value };

    ghost input_at: { ℕ → Self.Value };

    ghost content: { Self.Item → Self.Value };

    /// How many steps the chain has.
    fn steps(&self) -> usize
        ensures { result ≡ steps };

    /// Does one more step. `Err` is out of memory, and gives the item back with its number and its steps.
    fn work(&self, item: Self::Item) -> Result<Self::Item, Self::Item>
        requires { Self.Item.done_of item < steps }
        ensures ok { IfOk result
            (λ x. (Self.Item.number_of x ≡ Self.Item.number_of item)
            × (Self.Item.done_of x ≡ Self.Item.done_of item + 1)) }
        ensures err { IfErr result
            (λ x. (Self.Item.number_of x ≡ Self.Item.number_of item)
            × (Self.Item.done_of x ≡ Self.Item.done_of item)) };

    /// What a gate is notified of about an item.
    fn span(&self, item: &Self::Item) -> Span {
        let number = item.number();
        Span {
            stages: 0,
            first: number,
            end: number.saturating_add(1),
        }
    }

    ghost holds: { (x : Self.Item)
        → content x ≡ value_of step (Self.Item.done_of x) (input_at (Self.Item.number_of x)) };
}

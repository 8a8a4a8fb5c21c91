// The walk's state in the lent words. What waits is a stack of one word each from the first word on; nodes are records of one word each,
// laid down from the last word downwards. Leans on nothing; specs/Views says what each function does.
ghost use Rattle.scan.specs.Views.{pushed, popped, laid, settled, taken, Based};
ghost use Rattle.scan.specs.States.{Sound, Becomes, view_of, Grounded, HasRoom, HasTwo, free_of, stack_of};
ghost use Rattle.std.specs.Prelude.{◌≡◌, ◌≤◌, ◌<◌};

// How far the walk is: the place of the last token that was read; how many words the stack has, and the last of them; where the records
// begin.
#[derive(Clone, Copy)]
pub struct State {
    pub left: usize,
    pub depth: usize,
    pub top: u32,
    pub out: usize,
}

impl State {
    // One word more waits.
    pub(crate) fn push(self, work: &mut [u32], word: u32) -> State
        requires { Sound work.old self × HasRoom self }
        ensures { Becomes work.old work.new result (pushed word (view_of work.old self)) }
    {
        work[self.depth] = word;
        State {
            depth: self.depth + 1,
            top: word,
            ..self
        }
    }

    // The last word waits no more.
    pub(crate) fn pop(self, work: &[u32]) -> State
        requires { Sound work.now self × HasTwo self }
        ensures { Becomes work.now work.now result (popped (view_of work.now self)) }
    {
        let depth = self.depth - 1;
        State {
            depth,
            top: work[depth - 1],
            ..self
        }
    }

    // One record more, below the others.
    pub(crate) fn lay(self, work: &mut [u32], node: u32) -> State
        requires { Sound work.old self × HasRoom self }
        ensures { Becomes work.old work.new result (laid node (view_of work.old self)) }
    {
        let out = self.out - 1;
        work[out] = node;
        State { out, ..self }
    }

    // The last word that waits takes what has been read as its left operand: it becomes a record.
    pub(crate) fn take(self, work: &mut [u32]) -> State
        requires { Sound work.old self × HasRoom self × HasTwo self }
        ensures becomes { Becomes work.old work.new result (taken (view_of work.old self)) }
        ensures result_value { free_of result ≡ free_of self }
    {
        let s = self.lay(work, self.top % 0x400_0000);
        s.pop(work)
    }

    // The words from a number on take what has been read as their left operand: each becomes a record. Some word that waits is below it.
    pub(crate) fn settle(self, work: &mut [u32], from: u32) -> State
        requires sound { Sound work.old self × HasRoom self }
        requires grounded { Grounded from (stack_of work.old self.depth) }
        ensures becomes { Becomes work.old work.new result (settled from (view_of work.old self)) }
        ensures result_value { free_of result ≡ free_of self }
    {
        let mut s = self;
        while s.top >= from {
            s = s.take(work);
        }
        s
    }
}

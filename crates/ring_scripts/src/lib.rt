// The calls of a ring as values, so that any list of them can be run.
#![tactic(auto)]

ghost use Rattle.std.specs.Prelude.{◌≡◌};
ghost use Rattle.ring.specs.Rings.{StaysSound};
ghost use Rattle.ring_scripts.specs.Scripts.{Performs, Continues, Session};

use ring::Ring;
use umem::refusal::Refusal;

#[cfg(test)]
mod tests;

// A call with its arguments.
#[derive(Clone, Copy)]
pub enum Call<E> {
    Reserve(u32),
    Put(u32, E),
    Submit(u32),
    Withdraw(u32),
    Peek(u32),
    Get(u32),
    Cancel(u32),
    Release(u32),
    Push(E),
    Pop,
}

// What a call that is served answers.
#[derive(Clone, Copy, PartialEq, Debug)]
pub enum Answer<E> {
    // How many, and the mark of the first.
    Span(u32, u32),
    Done,
    Entry(E),
    Popped(Option<E>),
}

// What `reserve` and `peek` answer.
impl<E> From<(u32, u32)> for Answer<E> {
    ghost use Rattle.ring_scripts.specs.Scripts.{span_told};

    ghost from_gives = { λ span answer. answer ≡ span_told span };

    fn from((count, first): (u32, u32)) -> Answer<E> {
        Answer::Span(count, first)
    }
}

// Makes one call.
pub fn perform<E: Copy>(ring: &mut Ring<E>, call: Call<E>) -> Result<Answer<E>, Refusal>
    ensures performed { Performs ring.old call result ring.new }
    ensures sound { StaysSound ring.old ring.new }
{
    match call {
        Call::Reserve(n) => Ok(Answer::from(ring.reserve(n))),
        Call::Put(mark, entry) => ring.put(mark, entry).and(Ok(Answer::Done)),
        Call::Submit(n) => ring.submit(n).and(Ok(Answer::Done)),
        Call::Withdraw(n) => ring.withdraw(n).and(Ok(Answer::Done)),
        Call::Peek(n) => Ok(Answer::from(ring.peek(n))),
        Call::Get(mark) => ring.get(mark).map(Answer::Entry),
        Call::Cancel(n) => ring.cancel(n).and(Ok(Answer::Done)),
        Call::Release(n) => ring.release(n).and(Ok(Answer::Done)),
        Call::Push(entry) => ring.push(entry).and(Ok(Answer::Done)),
        Call::Pop => Ok(Answer::Popped(ring.pop())),
    }
}

// Makes each call in turn. Every past of the ring goes on by just these calls.
pub fn run<E: Copy>(ring: &mut Ring<E>, calls: &[Call<E>])
    ensures continued { Continues ring.old calls.now ring.new }
    ensures sound { StaysSound ring.old ring.new }
{
    // Asked for what it tells of the ring where there is no call.
    let _ = ring.size();
    for call in calls {
        let _ = perform(ring, *call);
    }
}

// A new ring over the slots, and any calls on it: how many entries wait at the end. What holds of every run stands here
// with nothing asked.
pub fn session<E: Copy>(slots: &mut [E], start: u32, calls: &[Call<E>]) -> u32
    ensures { Session slots.old start calls.now result }
{
    let mut ring = Ring::new(slots, start);
    run(&mut ring, calls);
    ring.len()
}

// The entries that wait, where the slots hold them.
ghost use Rattle.std.specs.Prelude.{◌≡◌, ◌≤◌, ◌++◌, length, take};
ghost use Rattle.ring.specs.Rings.{queue, Sound};

use super::Ring;

impl<'a, E> Ring<'a, E> {
    // The waiting entries, oldest first, in two parts: as far as the last slot, and then from the first slot on. They are
    // so few that a count of them fits.
    pub(crate) fn waiting_parts(&self) -> (&[E], &[E])
        ensures parts { queue self.now ≡ result.0.now ++ result.1.now }
        ensures few { length (queue self.now) ≤ 256 }
        ensures sound { Sound self.now }
    {
        let Some(oldest) = self.marks.oldest_slot() else {
            return (&[], &[]);
        };
        let size = self.marks.size() as usize;
        let waiting = self.marks.waiting() as usize;
        let (wrapped, straight) = self.slots[..size].split_at(oldest);
        let first = waiting.min(straight.len());
        (&straight[..first], &wrapped[..waiting - first])
    }
}

impl<'a, E: Copy> Ring<'a, E> {
    // Copies the oldest entries.
    pub(super) fn copy_oldest(&self, out: &mut [E])
        requires { length out.old ≤ length (queue self.now) }
        ensures { out.new ≡ take (length out.old) (queue self.now) }
    {
        let (front, back) = self.waiting_parts();
        let (head, tail) = out.split_at_mut(front.len().min(out.len()));
        head.copy_from_slice(&front[..head.len()]);
        // Seldom: a call that copies nothing costs as much as one that copies a few.
        if !tail.is_empty() {
            tail.copy_from_slice(&back[..tail.len()]);
        }
    }
}

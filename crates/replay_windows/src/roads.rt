// What the replay by the loss of a road writes: of each event its byte, and its name.
ghost use Rattle.std.specs.Prelude.{◌≡◌, ◌≤◌, ◌<◌, length, set};
ghost use Rattle.std.proofs.Common.{◌∙◌, le_trans, refl, subst, sym};
ghost use Rattle.replay_windows.specs.Descent.{Replied, replied_both, replied_none, written};

use replay_start::roads::Roads;
use replay_step::Window;

// Internal: the tables that it is lent.
#[derive(Drop)]
pub struct RoadReplies<'a> {
    pub answers: &'a mut [u8],
    pub names: &'a mut [u16],
}

// Writes the name of an event.
fn put_name(names: &mut [u16], event: usize, name: u16)
    requires { event < length names.old }
    ensures { names.new ≡ set names.old event name }
{
    names[event] = name;
}

impl crate::Replies for RoadReplies<'_> {
    type By = Roads;

    ghost long = { λ e t. (e ≤ length t.answers.now) × (e ≤ length t.names.now) };

    ghost same = { λ t u. (u.answers.ghost_name ≡ t.answers.ghost_name) × (u.names.ghost_name ≡ t.names.ghost_name)
        × (length u.answers.now ≡ length t.answers.now) × (length u.names.now ≡ length t.names.now) };

    ghost wrote = { λ g p at n t u k. Replied g at n p (written t.answers.now t.names.now) (written u.answers.now u.names.now) k };

    ghost parts = { record {
      shorter = λ d e t h l. (le_trans h l.0, le_trans h l.1);
      as_long = λ e t u s l. (subst (λ k. e ≤ k) (sym s.2) l.0, subst (λ k. e ≤ k) (sym s.3) l.1);
      still = λ t u v a b. (b.0 ∙ a.0, b.1 ∙ a.1, b.2 ∙ a.2, b.3 ∙ a.3);
      nothing = λ g p t. ((refl, refl, refl, refl), replied_none g p (written t.answers.now t.names.now));
      both = λ g s p a w v two z c e t u x b k i j. replied_both g p a w v two z c e (written t.answers.now t.names.now) (written u.answers.now u.names.now)
          (written x.answers.now x.names.now) b k i j;
    } };

    fn one(&mut self, w: Window, p: usize, work: &[u32]) {
        let byte = replay_leaf::byte_of(work[2], w.nodes, w.edges);
        let name = replay_leaf::name_of(byte, work[13]);
        crate::put_byte(self.answers, w.at, byte);
        put_name(self.names, w.at, name);
    }
}

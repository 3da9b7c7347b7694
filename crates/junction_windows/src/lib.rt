// What the replay by the loss of a junction writes: of each event its byte. Its recursion over windows is the replay's (replay_windows::window).
#![tactic(auto)]

ghost use Rattle.std.specs.Prelude.{◌≡◌, ◌≤◌, length};
ghost use Rattle.std.proofs.Common.{◌∙◌, le_trans, refl, subst, sym};
ghost use Rattle.junction_windows.specs.JunctionDescent.{JunctionReplied, junction_replied_both};

use junction_start::Junctions;
use replay_step::Window;
use replay_windows::Replies;

// Internal: the table that it is lent.
#[derive(Drop)]
pub struct JunctionReplies<'a> {
    pub answers: &'a mut [u8],
}

impl Replies for JunctionReplies<'_> {
    type By = Junctions;

    ghost long = { λ e t. e ≤ length t.answers.now };

    ghost same = { λ t u. (u.answers.ghost_name ≡ t.answers.ghost_name) × (length u.answers.now ≡ length t.answers.now) };

    // The nodes of its graphs are no part of its replies.
    ghost wrote = { λ g p at n t u k. JunctionReplied g at n t.answers.now u.answers.now };

    ghost parts = { record {
      shorter = λ d e t h l. le_trans h l;
      as_long = λ e t u s l. subst (λ k. e ≤ k) (sym s.1) l;
      still = λ t u v a b. (b.0 ∙ a.0, b.1 ∙ a.1);
      nothing = λ g p t. ((refl, refl), refl);
      both = λ g s p a w v two z c e t u x b k i j. junction_replied_both g p a w two c e t.answers.now u.answers.now x.answers.now i j;
    } };

    fn one(&mut self, w: Window, p: usize, work: &[u32]) {
        let byte = junction_leaf::byte_of(work, w.edges);
        replay_windows::put_byte(self.answers, w.at, byte);
    }
}

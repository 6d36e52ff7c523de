//! Samples of the definitions of texts, written out and proved by computing them.

ghost use Rattle.std.specs.Prelude.{◌≡◌, ◌++◌, [], ◌∷◌, codes};
ghost use Rattle.std.specs.Fmt.{decimal};
ghost use Rattle.fleet_base.specs.declared.entries.Act.TheVariants.{Merged, Deferred, Retried, Canceled, Withdrawn, Replanned, Reported};
ghost use Rattle.fleet_model.specs.Calls.{entries_of};
ghost use Rattle.fleet_model.specs.Examples.{a, b, c, d, r1, r2, r3, cell, cells, claim, event, entry, fleet_on, junction, proposes, retries, reports, reports_all, looks, withdraws, one_at_junction, two_at_junction, both_by_b, three_at_bypass, face_to_face, no_way_out, there_and_back};
ghost use Rattle.fleet_model.specs.Yard as run;
ghost use Rattle.fleet_texts.specs.Words.{claim_text};
ghost use Rattle.fleet_texts.specs.Texts.{entry_text, journal_text};
ghost use Rattle.fleet_texts.specs.Samples.{names, plain, yard, yard_names, run_text};
ghost use Rattle.fleet_base.specs.Lists.{robots_of};

/// Each entry has one line.
pub fn entries()
    ensures merged { entry_text names (entry r1 (Merged (cells (a ∷ b ∷ [])) (event 1))) ≡ codes "merged r1 1 a b" }
    ensures deferred { entry_text names (entry r1 (Deferred (cells (a ∷ b ∷ [])) [])) ≡ codes "deferred r1 0 a b" }
    ensures cycle { entry_text names (entry r2 (Deferred (cells (b ∷ a ∷ [])) (robots_of (r2 ∷ r1 ∷ [])))) ≡ codes "deferred r2 2 r2 r1 b a" }
    ensures retried { entry_text names (entry r3 (Retried (event 10))) ≡ codes "retried r3 10" }
    ensures canceled { entry_text names (entry r1 Canceled) ≡ codes "canceled r1" }
    ensures withdrawn { entry_text names (entry r1 (Withdrawn 6 (cell d))) ≡ codes "withdrawn r1 6 d" }
    ensures replanned { entry_text names (entry r2 (Replanned (cells (b ∷ c ∷ d ∷ [])) (event 7))) ≡ codes "replanned r2 7 b c d" }
    ensures reported { entry_text names (entry r1 (Reported (event 120))) ≡ codes "reported r1 120" }
{}

/// A claim has the name of its cell or crossing; that of a flow has the flow's number behind it.
pub fn claims()
    ensures cell { claim_text yard_names (yard []) (claim 4) ≡ codes "q" }
    ensures crossing { claim_text yard_names (yard []) (claim 6) ≡ codes "x" }
    ensures flow { claim_text yard_names (yard ((1 ∷ []) ∷ (4 ∷ []) ∷ [])) (claim 7) ≡ codes "x:1" }
    ensures unknown { claim_text yard_names (yard []) (claim 7) ≡ [] }
{}

/// One robot drives a step.
pub fn one_step()
    ensures { run_text names (plain 4) one_at_junction (proposes r1 (a ∷ b ∷ []) ∷ reports r1 2 ∷ reports_all r1 1 3 ++ reports r1 3 ∷ []) ≡
        codes "merged 1 3\nrefused next 1\nreported\nreported\nreported\nrefused next none\n"
        ++ codes "journal 1\nmerged r1 1 a b\nreported r1 1\nreported r1 2\nreported r1 3\nend\n"
        ++ codes "state 1\nentries 4\nnext 4\nrobot r1 at b end b\nholds b\nend\n" }
{}

/// A robot waits for the release of another one.
pub fn one_behind_the_other()
    ensures { run_text names (plain 4) two_at_junction (both_by_b ++ reports r2 7 ∷ reports_all r1 1 6 ++ looks r2 ∷ reports r2 7 ∷ []) ≡
        codes "merged 1 6\nmerged 7 9\nrefused early 6\nreported\nreported\nreported\nreported\nreported\nreported\n"
        ++ codes "look at d end b left 3 next ready 7 acquire b pending none\nreported\n"
        ++ codes "journal 1\nmerged r1 1 a b c\nmerged r2 7 d b\nreported r1 1\nreported r1 2\nreported r1 3\nreported r1 4\nreported r1 5\nreported r1 6\nreported r2 7\nend\n"
        ++ codes "state 1\nentries 9\nnext 10\nrobot r1 at c end c\nholds c\nrobot r2 at d end b\nholds b d\nevent 8 move d b\nevent 9 release d\nend\n" }
{}

/// A deferred route is retried once its blocker's end has moved.
pub fn there_and_back_again()
    ensures { journal_text names (entries_of (fleet_on junction (a ∷ c ∷ [])) there_and_back) ≡
        codes "journal 1\nmerged r1 1 a b\ndeferred r2 0 c b\nmerged r1 4 b a\nretried r2 7\nend\n" }
{}

/// Two robots are in each other's way, which closes a cycle, and one of them gives up.
pub fn in_each_others_way()
    ensures { run_text names (plain 5) three_at_bypass (face_to_face ++ looks r1 ∷ no_way_out ++ withdraws r1 ∷ []) ≡
        codes "deferred b r2\ndeferred a r1 cycle r2 r1\nmerged 1 3\nreported\nreported\nreported\n"
        ++ codes "look at a end a left 0 next none pending blocked b r2 cycle r1 r2\n"
        ++ codes "still b r2 cycle r1 r2\nstill a r1 cycle r2 r1\nrefused pending\nrefused no pending\nrefused nothing\n"
        ++ codes "journal 1\ndeferred r1 0 a b\ndeferred r2 2 r2 r1 b a\nmerged r3 1 d c\nreported r3 1\nreported r3 2\nreported r3 3\nend\n"
        ++ codes "state 1\nentries 6\nnext 4\nrobot r1 at a end a\nholds a\npending a b\nrobot r2 at b end b\nholds b\npending b a\nrobot r3 at c end c\nholds c\nend\n" }
{}

/// Claims of crossings stand among the events and among what is held.
pub fn through_a_crossing()
    ensures { run_text yard_names (yard []) (run.two_in run.site) (proposes r1 (run.a ∷ run.p ∷ []) ∷ reports r1 1 ∷ reports r1 2 ∷ []) ≡
        codes "merged 1 4\nreported\nreported\n"
        ++ codes "journal 1\nmerged r1 1 a p\nreported r1 1\nreported r1 2\nend\n"
        ++ codes "state 1\nentries 3\nnext 5\nrobot r1 at a end p\nholds a p x\nevent 3 move a p\nevent 4 release a\nrobot r2 at c end c\nholds c\nend\n" }
{}

//! The laws. The bodies are empty: what they state is proved of the definitions.

ghost use Rattle.std.specs.Prelude.{◌≡◌, ◌↔◌, ◌≤◌, All, ℕ, List, Err, None, Ok, length, true};
ghost use Rattle.proposals.specs.Losses.{IsLossesRefusal};
ghost use Rattle.refusals.specs.amount_math.declared.shortfall.LossFault.TheVariants as takes;
ghost use Rattle.refusals.specs.amount_math.declared.shortfall.Shortfall.{Shortfall};
ghost use Rattle.rearrange.specs.TestedPlans.{can_take_over, can_take_part, first_unkept, keeps, staged_changes};
ghost use Rattle.rearrange.specs.Slots.{are_covered, can_take, is_covered, is_safe};
ghost use Rattle.rearrange.specs.Told.{plan_told, seats_told};
ghost use Rattle.proposals.specs.OfferSafety.{AreCovered, IsCovered, IsOfferSafe};
ghost use Rattle.proposals.specs.Shares.{most_shares};
ghost use Rattle.proposals.specs.declared.allocations.Share.{Share};
ghost use Rattle.proposals.specs.declared.offers.Proposal.{Proposal};
ghost use Rattle.proposals.specs.declared.plans.SeatState.{SeatState};
ghost use Rattle.proposals.specs.declared.plans.Touched.{Touched};
ghost use Rattle.proposals.specs.declared.plans.Transfer.{Transfer};
ghost use Rattle.rearrange.specs.Plans.{IsPlanRefusal};
ghost use Rattle.rearrange.specs.Safety.{AreSafe};
ghost use Rattle.rearrange.specs.Seats.{allocation_of, seats_named, staged_refusal, transfers_refusal};
ghost use Rattle.rearrange.specs.Staged.{IsStagedRefusal, staged_plan};
ghost use Rattle.rearrange.specs.Sums.{AreConserved};
ghost use Rattle.rearrange.specs.TransferRefusals.{CanWork, IsTransfersRefusal, TransfersFault};
ghost use Rattle.rearrange.specs.TransferRefusals.{seated_changes, transfers_told};
ghost use Rattle.rearrange.specs.Transfers.{transfers_plan};
ghost use Rattle.rearrange.specs.declared.plans.PlanFault.{PlanFault};
ghost use Rattle.refusals.specs.Outcomes.{Fails, none_such};
ghost use Rattle.refusals.specs.declared.codes.Refusal.TheVariants.{NotEnough};

/// A test of slots passes exactly where they cover the shares (Zoe's offer safety), and shares are refused to be
/// taken exactly where a plan refuses them, with the same shortfall.
pub fn tests_of_slots_are_exact()
    ensures covered { (slots : List Share) (share : Share) →
        (is_covered slots share ≡ true) ↔ IsCovered slots share }
    ensures shares { (slots shares : List Share) →
        (are_covered slots shares ≡ true) ↔ AreCovered slots shares }
    ensures safe { (p : Proposal) (slots : List Share) →
        (is_safe p slots ≡ true) ↔ IsOfferSafe p slots }
    ensures taken { (slots losses : List Share) →
        (can_take slots losses ≡ Ok tt) ↔ AreCovered slots losses }
    ensures refused { (slots losses : List Share) (short : Shortfall) →
        (can_take slots losses ≡ Err (NotEnough short))
        ↔ IsLossesRefusal slots losses (takes.NotEnough short) }
{}

/// Something is told that isn't conserved exactly where some element of some brand isn't: of each, the touched
/// seats have as many after as before (Zoe's conservation of rights).
pub fn what_is_not_conserved_is_told()
    ensures conserved { (touched : List Touched) →
        (first_unkept touched ≡ None) ↔ AreConserved touched }
{}

/// The tests of seats find the faults that plans find, in their order, and pass where plans find none.
pub fn seats_are_tested_as_plans_test_them()
    ensures staged { (i : ℕ) (states : List SeatState) (seats : List ℕ) →
        can_take_over i states seats ≡ none_such (staged_refusal i states seats) seats_told }
    ensures transfers { (i : ℕ) (states : List SeatState) (seats : List ℕ) →
        can_take_part i states seats ≡ none_such (transfers_refusal i states seats) seats_told }
{}

/// What seats have after a plan passes its tests where it is conserved, safe and small, and is refused else by
/// the fault that plans find.
pub fn plans_are_tested_as_they_are_made()
    ensures kept { (states : List SeatState) (touched : List Touched) → AreConserved touched
        → AreSafe states touched → All (λ t. length t.after ≤ most_shares) touched
        → keeps states touched ≡ Ok tt }
    ensures refused { (states : List SeatState) (touched : List Touched) (fault : PlanFault) →
        IsPlanRefusal states touched fault → Fails (plan_told fault) (keeps states touched) }
{}

/// Staging is taken over where its plan is made, and is refused by the fault that its plan is refused by.
pub fn staging_is_taken_over_as_it_is_planned()
    ensures planned { (i : ℕ) (states : List SeatState) (seats : List ℕ) →
        staged_refusal i states seats ≡ None
        → AreConserved (staged_plan states seats) → AreSafe states (staged_plan states seats)
        → All (λ t. length t.after ≤ most_shares) (staged_plan states seats)
        → staged_changes i states seats ≡ Ok (staged_plan states seats) }
    ensures refused { (i : ℕ) (states : List SeatState) (seats : List ℕ) (fault : PlanFault) →
        IsStagedRefusal i states seats fault
        → Fails (plan_told fault) (staged_changes i states seats) }
{}

/// Transfers between seats that can take part are worked where their plan is made, and are refused by the
/// fault that their plan is refused by.
pub fn transfers_are_worked_as_they_are_planned()
    ensures planned { (i : ℕ) (states : List SeatState) (list : List Transfer) →
        transfers_refusal i states (seats_named list) ≡ None → CanWork (allocation_of states) list
        → AreConserved (transfers_plan states list) → AreSafe states (transfers_plan states list)
        → All (λ t. length t.after ≤ most_shares) (transfers_plan states list)
        → seated_changes i states list ≡ Ok (transfers_plan states list) }
    ensures refused { (i : ℕ) (states : List SeatState) (list : List Transfer)
        (fault : TransfersFault) →
        IsTransfersRefusal i states list fault
        → Fails (transfers_told fault) (seated_changes i states list) }
{}

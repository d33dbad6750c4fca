//! What holds of tallies, whatever code keeps them. Each function is a law: a call of it does nothing.
ghost use Rattle.std.specs.Prelude.{◌≡◌, ℕ, List, [], ◌∷◌, ◌++◌, ◌≢◌, length, Contains, IsTrue};
ghost use Rattle.ntp_customer.specs.Tally.{Tally, IsTally, capped_count, tally};
ghost use Rattle.ntp_packet.specs.{declared.stamp.Stamp.Stamp, declared.moment.Moment.Moment, Fresh.is_free};
ghost use Rattle.ntp_customer.specs.{declared.slot.Slot.Slot, Customer.CustomerState, Customer.IsCustomer, Past.Past, Past.short};
ghost use Rattle.ntp_customer.specs.Exchanges.{AreSaved, recent, with_recent, new_exchange, receives, all_stamps, spent, with_departure};

/// Lists with one tally have the same count in each window, and still one tally after one more event in
/// the same window.
pub fn a_tally_tells_all()
    ensures { (windows others : List ℕ) (w : ℕ) → tally windows ≡ tally others
        → (capped_count windows w ≡ capped_count others w) × (tally (windows ++ w ∷ []) ≡ tally (others ++ w ∷ [])) }
{}

/// Each tally is that of some list.
#[tactic(auto, using(crate::proofs::Tallies::tallies))]
pub fn every_tally_is_of_a_list()
    ensures { (t : Tally) → IsTally t → (windows : List ℕ) × (tally windows ≡ t) }
{}

/// Keeping the recent exchanges alone loses nothing: what is appended to them leaves the same recent ones
/// as if all were kept, and a change of them is a change of the recent ones of the whole.
pub fn recent_ones_suffice()
    ensures appended { (xs ys : List Slot) → recent (recent xs ++ ys) ≡ recent (xs ++ ys) }
    ensures changed { (xs ys : List Slot) → length ys ≡ length (recent xs) → recent (with_recent xs ys) ≡ ys }
    ensures spent { (xs : List Slot) (s : Stamp) →
        recent (with_recent xs (spent (recent xs) s)) ≡ spent (recent xs) s }
    ensures departed { (xs : List Slot) (s : Stamp) (m : Moment) →
        recent (with_recent xs (with_departure (recent xs) s m)) ≡ with_departure (recent xs) s m }
{}

/// `AreSaved` holds of the empty list. It is kept by a new exchange whose stamps are free, by one that is
/// spent, and by one that departs.
pub fn saved_ones_stay_saved()
    ensures none { AreSaved [] }
    ensures pushed { (xs : List Slot) (receive transmit : Stamp) → AreSaved xs
        → IsTrue (is_free (all_stamps xs) receive) → IsTrue (is_free (receives xs ++ receive ∷ []) transmit)
        → AreSaved (recent (xs ++ new_exchange receive transmit ∷ [])) }
    ensures spent { (xs : List Slot) (s : Stamp) → AreSaved xs → AreSaved (spent xs s) }
    ensures departed { (xs : List Slot) (s : Stamp) (m : Moment) → AreSaved xs → AreSaved (with_departure xs s m) }
{}

/// Of the exchanges that are saved at most one has a receive stamp.
pub fn at_most_one_has_a_receive_stamp()
    ensures { (xs : List Slot) → AreSaved xs → (x y : Slot) → Contains xs x → Contains xs y
        → x.receive ≡ y.receive → x ≡ y }
{}

/// Of the exchanges that are saved none has a stamp 0, and no transmit stamp is a receive stamp.
pub fn saved_stamps_are_apart()
    ensures { (xs : List Slot) → AreSaved xs → (x y : Slot) → Contains xs x → Contains xs y
        → (x.receive.0 ≢ 0) × (x.transmit.0 ≢ 0) × (x.transmit ≢ y.receive) }
{}

/// Each customer is what is kept of some past, so what is said for each such past is said of one at least.
pub fn a_customer_has_a_past()
    ensures { (customer : CustomerState) → IsCustomer customer → (past : Past) × (short past ≡ customer) }
{}

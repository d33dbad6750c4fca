//! What holds of the definitions, whatever code meets them. Each function is a law: a call of it does
//! nothing.
ghost use Rattle.std.specs.Prelude.{◌≡◌, ℕ, ◌<◌, Bool, None, option_map, IfSome, List, map, filter};
ghost use Rattle.ntp_customer.specs.{Tally.most_counted, Exchanges.AreSaved, Customer.HasKeys, Customer.budget_of, Past.short};
ghost use Rattle.std.specs.Option.{option_map_or};
ghost use Rattle.ntp_packet.specs.Header.{HeaderFields};
ghost use Rattle.ntp_service.specs.{Registry.Registry, declared.address.Address.Address, declared.event.Event.Event};
ghost use Rattle.ntp_service.specs.{declared.outcome.Outcome.Outcome, Events.own, Bound.RepliesAreFew, Bound.TellsFew};
ghost use Rattle.ntp_reply.specs.{declared.occasion.Occasion.Occasion, Exchanged.matched};
ghost use Rattle.ntp_reply.specs.Replies.{HasDistinctStamps, new_stamps, basic_fields, time_fields};
ghost use Rattle.ntp_reply.specs.Life.{Life, enrolment_in, recent_in};
ghost use Rattle.ntp_service.specs.Model.{life_of, answer_to, after, says_after, FollowsModel};
ghost use Rattle.ntp_service.specs.Headline.{StandsFor, Tells, IsEnrolledWith, happened_to};
ghost use Rattle.ntp_service.specs.Forgery.{at_genuine, genuine, without_refusals, TellsWithoutForgeries};
ghost use Rattle.ntp_service.specs.Split.{names_any, comes_to, HadMemory, NoneStruck};

use std::alloc::Allocator;

/// What is kept of a life tells all of it: two lives with the same kept part answer each event alike, and keep the
/// same part afterwards. Budgets are below where counting stops, as each command's is.
pub fn what_is_kept_of_a_life_tells_all<A: Allocator>()
    ensures { (one other : Life) (e : Event A) → option_map short one ≡ option_map short other
        → option_map_or budget_of one 0 < most_counted
        → (answer_to one e ≡ answer_to other e) × (option_map short (after one e) ≡ option_map short (after other e)) }
{}

/// No neighbour is felt: where two services were told of an address the same before and the same now,
/// whatever they were told of others, they give that address the same outcomes.
pub fn no_neighbour_is_felt<A: Allocator>()
    ensures { (address : Address) (history other_history : List (Event A)) (happened other_happened : List (Event A × Outcome))
        (service other_service : Registry)
        → Tells history happened service → Tells other_history other_happened other_service
        → own address history ≡ own address other_history
        → map (λ p. p.0) (happened_to address happened) ≡ map (λ p. p.0) (happened_to address other_happened)
        → map (λ p. p.1) (happened_to address happened) ≡ map (λ p. p.1) (happened_to address other_happened) }
{}

/// A split is not felt: where customers are split over services by address, and every command is told to each, a service
/// gives its events the outcomes that one service of all customers gives them. Refused commands are among them. So it is
/// where its history is split alike, and neither refuses a command for want of memory.
pub fn a_split_is_not_felt<A: Allocator>()
    ensures { (has : Address → Bool) (history : List (Event A)) (happened happened_there : List (Event A × Outcome))
        (service service_there : Registry)
        → Tells history happened service → Tells (filter (comes_to has) history) happened_there service_there
        → HadMemory happened → HadMemory happened_there
        → map (λ p. p.0) happened_there ≡ filter (comes_to has) (map (λ p. p.0) happened)
        → happened_there ≡ filter (λ p. comes_to has p.0) happened }
{}

/// A split of commands is not felt: where customers are split over services by address, their commands with them, a
/// service gives its events the outcomes that one service of all customers gives them. So it is where its history is
/// split alike, the service of all strikes no command out, and none is refused for want of memory.
pub fn a_split_of_commands_is_not_felt<A: Allocator>()
    ensures { (has : Address → Bool) (history : List (Event A)) (happened happened_there : List (Event A × Outcome))
        (service service_there : Registry)
        → Tells history happened service → Tells (filter (names_any has) history) happened_there service_there
        → NoneStruck happened → HadMemory happened_there
        → map (λ p. p.0) happened_there ≡ filter (names_any has) (map (λ p. p.0) happened)
        → happened_there ≡ filter (λ p. names_any has p.0) happened }
{}

/// No two addresses are enrolled with one key number.
pub fn a_number_has_one_holder<A: Allocator>()
    ensures { (service : Registry) (history : List (Event A)) (one two : Address) (number : ℕ) → StandsFor service history
        → IsEnrolledWith history one number → IsEnrolledWith history two number → one ≡ two }
{}

/// Whatever events an address had: while it is enrolled it has one key or two, and two keys have two numbers. So a number names
/// one key.
pub fn a_customer_has_one_or_two_keys<A: Allocator>()
    ensures { (events : List (Event A)) → IfSome (enrolment_in (life_of events)) HasKeys }
{}

/// Whatever events an address had: of the exchanges that are saved of it no stamp is 0, no two have one receive stamp, and no
/// transmit stamp is a receive stamp; and no time reply and no crypto-NAK to it has equal receive and transmit stamps, or a
/// transmit stamp 0. (Of a kiss that is `a_reply_has_distinct_stamps` of `ntp_reply`.)
pub fn stamps_are_told_apart<A: Allocator>()
    ensures saved { (events : List (Event A)) → AreSaved (recent_in (life_of events)) }
    ensures time { (events : List (Event A)) (o : Occasion) (request : HeaderFields)
        → HasDistinctStamps (time_fields o request (matched (recent_in (life_of events)) request) (new_stamps o (recent_in (life_of events)))) }
    ensures nak { (events : List (Event A)) (o : Occasion) (request : HeaderFields)
        → HasDistinctStamps (basic_fields o request (new_stamps o (recent_in (life_of events)))) }
{}

/// Forged datagrams change nothing: without each datagram that was no signed query when it came, the other events of an
/// address are answered as they are with it, and leave the same life, but for the refusals that are counted. A replay of a
/// signed datagram counts as signed.
pub fn forged_datagrams_change_nothing<A: Allocator>()
    ensures answers { (events : List (Event A)) → says_after None (genuine events) ≡ at_genuine None events (says_after None events) }
    ensures life { (events : List (Event A)) → without_refusals (life_of (genuine events)) ≡ without_refusals (life_of events) }
{}

/// Replies are few: in a stretch of the events of an address, in which no command is done and the windows of the receipts never
/// fall, of the datagrams with their receipt in one window at most one more than the budget are answered with the time or `RATE`,
/// and none where the address is not enrolled; and at most four with `DENY` or a crypto-NAK. Where receipts fall back into a
/// window after another, or a command is done, a new count may begin.
pub fn replies_in_a_window_are_few<A: Allocator>()
    ensures { (life : Life) (happened : List (Event A × Outcome)) → FollowsModel life happened → RepliesAreFew life happened }
{}

/// No forgery is felt: where a service told its events the outcomes that the headline says, as `Service::run` and the loop of a server do, each
/// address was told at its genuine events what the model gives to these alone.
pub fn no_forgery_is_felt<A: Allocator>()
    ensures { (history : List (Event A)) (happened : List (Event A × Outcome)) (service : Registry)
        → Tells history happened service → TellsWithoutForgeries history happened }
{}

/// Few replies are told: where a service told its events the outcomes that the headline says, as `Service::run` and the loop of a server do, the
/// replies to each address in a window are few.
pub fn few_replies_are_told<A: Allocator>()
    ensures { (history : List (Event A)) (happened : List (Event A × Outcome)) (service : Registry)
        → Tells history happened service → TellsFew history happened }
{}

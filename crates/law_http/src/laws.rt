//! Laws of what is heard, what is put and what is served, each as the contract of a function with an empty body.

ghost use Rattle.std.specs.Prelude.{◌≡◌, ◌≢◌, ◌≤◌, ◌<◌, ◌^◌, ℕ, true, List, Option, None, Some, length};
ghost use mathlib.Core.List.{IsPrefix};
ghost use Rattle.law_register.specs.Desk.History.{entries_of};
ghost use Rattle.law_register.specs.Desk.States.{Found};
ghost use Rattle.law_register.specs.Register.Entering.{entered};
ghost use Rattle.law_register.specs.Register.Verdicts.{is_legal, request_of};
ghost use Rattle.law_register.specs.declared.desk.event.Event.{Event};
ghost use Rattle.law_register.specs.declared.law.command.Command.{Command};
ghost use Rattle.law_register.specs.declared.register.entry.Entry.{Entry};
ghost use Rattle.law_register.specs.declared.register.verdict.Reply.{Reply as Outcome};
ghost use Rattle.law_http.specs.Apart.{AreAlike, AsksOwn};
ghost use Rattle.law_http.specs.Asking.{asking_of};
ghost use Rattle.law_http.specs.Connections.{IsWellAnswered};
ghost use Rattle.law_http.specs.Faultless.{IsDetermined, IsFaultless, reply_on};
ghost use Rattle.law_http.specs.Hearing.{AreHeard, IsFirstHeard};
ghost use Rattle.law_http.specs.Lasting as lasting;
ghost use Rattle.law_http.specs.Responses.{ReadsBack, Reply, reply_bytes, response_bytes};
ghost use Rattle.law_http.specs.Serving.{Serves};
ghost use Rattle.law_http.specs.Streaming.{AreServed, Exchange, IsStreamed, RoseBy, faults_told};
ghost use Rattle.law_http.specs.declared.cutting.TheConstants.{MAX_HEAD};
ghost use Rattle.law_http.specs.declared.framing.TheConstants.{MAX_BODY, MAX_DIGITS};
ghost use Rattle.law_http.specs.declared.head.TheConstants.{MAX_FIELDS};
ghost use Rattle.law_http.specs.declared.heard.Heard.{Heard};
ghost use Rattle.law_http.specs.declared.heard.Request.{Request};
ghost use Rattle.law_http.specs.declared.response.Response.{Response};
ghost use Rattle.law_http.specs.declared.response.Response.TheVariants.{MemoryFault};
ghost use Rattle.law_http.specs.declared.streaming.Served.{Served};

use law_register::Desk;

/// A head has 16,384 bytes at most, 64 fields, and a length of 19 digits; a body has 8,388,608 bytes at most.
pub fn limits_of_requests()
    ensures head { MAX_HEAD ≡ 16384 }
    ensures fields { MAX_FIELDS ≡ 64 }
    ensures digits { MAX_DIGITS ≡ 19 }
    ensures body { MAX_BODY ≡ 8388608 }
{}

/// The bytes of a stream determine what is heard first, and what bytes are left behind it.
pub fn first_heard_is_determined()
    ensures { (bytes rest later : List ℕ) (heard other : Heard) → IsFirstHeard bytes heard rest
        → IsFirstHeard bytes other later → (heard ≡ other) × (rest ≡ later) }
{}

/// The bytes of a stream determine all that is heard of it.
pub fn all_heard_is_determined()
    ensures { (bytes : List ℕ) (all others : List Heard) → AreHeard bytes all → AreHeard bytes others
        → all ≡ others }
{}

/// What is put is a response of HTTP/1.1 as httparse reads one, with its status, its fields and its body.
pub fn response_is_read_back()
    ensures { (reply : Reply) → length reply.body < 2 ^ 64 → ReadsBack reply }
{}

/// The entries of a desk only grow while requests are answered: those from before stand in front.
pub fn entries_only_grow<D: Desk>()
    ensures { (exchanges : List Exchange) (old new : D) → AreServed D.state D.crashes D.past exchanges old new
        → lasting.BeginWith (D.state old).entries (D.state new).entries }
{}

/// What happened at a desk stays while requests are answered: its history only grows, and its origin is as it was.
pub fn history_only_grows<D: Desk>()
    ensures history { (exchanges : List Exchange) (old new : D) → AreServed D.state D.crashes D.past exchanges old new
        → IsPrefix (D.history old) (D.history new) }
    ensures origin { (exchanges : List Exchange) (old new : D) → AreServed D.state D.crashes D.past exchanges old new
        → D.origin new ≡ D.origin old }
{}

/// A connection that is well answered stays so: from each beginning of what was seen before it, to each history with legal
/// entries that begins with what was seen behind it.
pub fn well_answered_stays()
    ensures { (front seen later more : List Event) (left over before now : Option (List ℕ)) (served : Served)
        → IsWellAnswered seen later left over before now served
        → IsPrefix front seen → IsPrefix later more → is_legal (entries_of more) ≡ true
        → IsWellAnswered front more left over before now served }
{}

/// Each response that says that the keeper failed has a fault of the keeper of its own.
pub fn faults_are_counted<D: Desk>()
    ensures { (exchanges : List Exchange) (old new : D) → AreServed D.state D.crashes D.past exchanges old new
        → RoseBy (faults_told exchanges) (D.state old).faults (D.state new).faults }
{}

/// A desk of which it is told what a crash leaves stays one while requests are answered, and its moments never fall.
pub fn kept_stays_kept<D: Desk>()
    ensures kept { (exchanges : List Exchange) (old new : D) → AreServed D.state D.crashes D.past exchanges old new
        → lasting.IsKept D.state D.crashes old → lasting.IsKept D.state D.crashes new }
    ensures moments { (exchanges : List Exchange) (old new : D) → AreServed D.state D.crashes D.past exchanges old new
        → lasting.IsKept D.state D.crashes old → (D.crashes old).moment ≤ (D.crashes new).moment }
{}

/// What a desk has lasts: a crash at any moment from then on, in the midst of a request too, leaves entries that begin
/// with those.
pub fn entries_last<D: Desk>()
    ensures { (after : List Exchange) (mid new : D) → AreServed D.state D.crashes D.past after mid new
        → lasting.IsKept D.state D.crashes mid
        → (found : Found) → (D.crashes new).left_since (D.crashes mid).moment found
        → lasting.FindsAfter (D.state mid).entries found }
{}

/// What a crash leaves, at any moment since a stream began, is what the desk had at some moment of it: a front part of
/// the entries in the end, with the entry that was pending there or without it, and never damage.
pub fn crash_leaves_a_front_part<D: Desk>()
    ensures { (exchanges : List Exchange) (old new : D) → AreServed D.state D.crashes D.past exchanges old new
        → lasting.IsKept D.state D.crashes old
        → (found : Found) → (D.crashes new).left_since (D.crashes old).moment found
        → lasting.IsFoundAmong D.state D.crashes D.past exchanges old new found }
{}

/// A response that says 201 has its entry among those of the desk from then on: the command that its request asked for,
/// with the drafter and the number of the request.
pub fn acknowledged_stand<D: Desk>()
    ensures { (exchanges : List Exchange) (old new : D) → AreServed D.state D.crashes D.past exchanges old new
        → lasting.AreAcknowledged (D.state new).entries exchanges }
{}

/// What is acknowledged lasts: at the moment of each response, and at any moment from then on, a crash leaves entries,
/// and among them those that this response and the ones before it acknowledged.
pub fn acknowledged_last<D: Desk>()
    ensures { (before after : List Exchange) (old mid new : D)
        → AreServed D.state D.crashes D.past before old mid → AreServed D.state D.crashes D.past after mid new
        → lasting.IsKept D.state D.crashes old
        → (found : Found) → (D.crashes new).left_since (D.crashes mid).moment found
        → (entries : List Entry) × (found ≡ Ok entries) × lasting.AreAcknowledged entries before }
{}

/// A repeat acts once: a command whose request was accepted before, with an equal command, gets the first reply and
/// leaves the entries as they are.
pub fn repeat_changes_nothing()
    ensures { (entries : List Entry) (drafter : List ℕ) (request day : ℕ) (command : Command) (entry : Entry)
        (reply : Outcome) → request_of entries drafter request ≡ Some (entry, reply) → entry.command ≡ command
        → entered entries drafter request day command ≡ Ok (entries, reply) }
{}

/// What is served without a fault is determined: over a desk where nothing is pending, the bytes that are written and
/// the entries that are left are functions of the entries at the start, of all that is heard of the bytes of the stream,
/// which these determine, and of the days that the clock gives, one for each command with a good form. Then nothing is
/// pending.
pub fn served_without_fault_is_determined<D: Desk>()
    ensures { (left over before now : Option (List ℕ)) (old new : D) (steps later : ℕ) (served : Served)
        → IsStreamed D.state D.crashes D.past D.judging left over before now old new steps later served
        → (D.state old).pending ≡ None → IsFaultless served
        → IsDetermined left before now (D.state old).entries (D.state old).days (D.state new).entries
        × ((D.state new).pending ≡ None) }
{}

/// Two streams of the same bytes, over desks with the same entries and the same days to come, that are both served
/// without a fault: the same is written, and the same entries are left.
pub fn same_stream_is_served_alike()
    ensures { (bytes before : List ℕ) (now other : Option (List ℕ)) (entries : List Entry) (told : ℕ → ℕ)
        (later others : List Entry) → IsDetermined (Some bytes) (Some before) now entries (Some told) later
        → IsDetermined (Some bytes) (Some before) other entries (Some told) others
        → (now ≡ other) × (later ≡ others) }
{}

/// Drafters are apart, byte by byte: where two lists of entries have the same law and the same entries of a drafter, the
/// bytes that he is answered are the same in both, of the front, of a text, of his previews and of his draft. What others
/// have in their drafts does not show, nor does the day.
pub fn drafters_are_apart()
    ensures { (drafter : List ℕ) (one other : List Entry) (day later : ℕ) (request : Request)
        → AreAlike drafter one other → AsksOwn drafter (asking_of request)
        → reply_bytes (reply_on one day request.closes (asking_of request))
        ≡ reply_bytes (reply_on other later request.closes (asking_of request)) }
{}

/// The same of two desks, of whatever kind, whose entries are alike for a drafter: where there was memory for it, both
/// respond to him by the same bytes.
pub fn responses_are_apart<D: Desk, E: Desk>()
    ensures { (drafter : List ℕ) (request : Request) (one next : D) (other after : E) (response answer : Response)
        → AreAlike drafter (D.state one).entries (E.state other).entries → AsksOwn drafter (asking_of request)
        → Serves D.state D.crashes D.past request one next response → Serves E.state E.crashes E.past request other after answer
        → response ≢ MemoryFault → answer ≢ MemoryFault → response_bytes response ≡ response_bytes answer }
{}

//! What the rules keep from a host.
ghost use Rattle.std.specs.Prelude.{◌≡◌, ℕ, List, true, Some};
ghost use Rattle.std.specs.List.{Contains, list_any};
ghost use Rattle.ldm_types.specs.Info.{Metadata};
ghost use Rattle.ldm_class.specs.Access.{is_about, is_yes, verdict};
ghost use Rattle.ldm_model.specs.declared.event.Event.TheVariants.{Insert, Stat};
ghost use Rattle.ldm_model.specs.declared.event.Entry.{Entry};
ghost use Rattle.ldm_relay.specs.Sent.{Sent};
ghost use Rattle.ldm_relay.specs.Sent as sent;
ghost use Rattle.ldm_model.specs.declared.stat.Stat as figures;
ghost use Rattle.ldm_intake.specs.Course.{Begins, Leads};
ghost use Rattle.ldm_serve.specs.Answering.{answering, events_of};
ghost use Rattle.ldm_serve.specs.Client.{Client};
ghost use Rattle.ldm_serve.specs.Respond.{respond};

/// Whatever a record says, the rules decide what its host gets of the queue. It does nothing.
pub fn rules_are_kept()
    // No product is inserted for which the ACCEPT verdict of the host is No.
    ensures inserts { (client : Client) (content : List ℕ) (now actor : ℕ) (made : List Entry)
        (time : ℕ) (info : Metadata) (body : List ℕ) → Begins actor (answering (respond client content) now) made →
        Contains (events_of made) (Insert time info body)
        → is_yes (verdict client.rules.accept client.host info) ≡ true }
    // The queue is asked for its figures only for a host that an ALLOW rule is about, and they go to no other.
    ensures asks_figures { (client : Client) (content : List ℕ) (now actor : ℕ) (made : List Entry) →
        Begins actor (answering (respond client content) now) made → Contains (events_of made) Stat →
        list_any (is_about client.host) client.rules.allow ≡ true }
    ensures tells_figures { (client : Client) (content : List ℕ) (now actor : ℕ) (made : List Entry)
        (messages : List Sent) (xid : ℕ) (stat : figures.Stat)
        → Leads actor (answering (respond client content) now) made messages →
        Contains messages (sent.QstatReply xid (Some stat))
        → list_any (is_about client.host) client.rules.allow ≡ true }
{}

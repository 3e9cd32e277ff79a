//! Laws: what the map's machine says of journals is what the map's rules say.
ghost use Rattle.std.specs.Prelude.{◌≡◌, ◌+◌, ℕ, true, List};
ghost use Rattle.hub_core.specs.Journal.{IsJournal, extended};
ghost use Rattle.machine_law.specs.Rules.{is_legal};
ghost use Rattle.machine_law.specs.declared.tags.Tag.{Tag};
ghost use Rattle.osm_model.specs.Journal.{IsLegal, calls_of, is_legal_from, journal_after, replay};
ghost use Rattle.osm_model.specs.State.{empty};
ghost use Rattle.osm_model.specs.declared.commands.Entry.{Entry};
ghost use Rattle.map_machine.specs.Machine.{act_as, map_rules};
ghost use Rattle.map_machine.specs.declared.plans.Asked.{Asked};

/// A law: what is a journal by the rules of the map's machine is a legal journal of the map.
pub fn journals_are_the_maps()
    ensures { (journal : List Entry) → IsJournal map_rules journal → IsLegal journal }
{}

/// A law: entries that the machine's rules accept one after the other are accepted by the map's.
pub fn fronts_are_the_maps()
    ensures { (front : List Entry) → is_legal map_rules front ≡ true → is_legal_from empty front ≡ true }
{}

/// A law: a journal with what a session's next command comes to is the map's journal after it.
pub fn commits_are_the_maps()
    ensures { (es : List Entry) (tag : Tag) (moment : ℕ) (asked : Asked) → tag.call ≡ calls_of tag.session es + 1
        → extended es (act_as (replay es) tag moment asked).entry ≡ journal_after es tag.session asked.user moment asked.command }
{}

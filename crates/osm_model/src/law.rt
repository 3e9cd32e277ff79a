//! Laws on whole journals, and on the maps that their entries make.
ghost use Rattle.std.specs.Prelude.{◌≡◌, ℕ, true, List, ◌∷◌, [], length, take, Ok, Err};
ghost use Rattle.osm_base.specs.Stamp.{stamp_after};
ghost use Rattle.osm_base.specs.declared.people.User.{User};
ghost use Rattle.osm_base.specs.declared.keys.Kind.TheVariants.{Node};
ghost use Rattle.osm_element.specs.Elements.{key, IsConsistent};
ghost use Rattle.osm_element.specs.Later.{Keeps};
ghost use Rattle.osm_change.specs.Moments.{HasShownMoments};
ghost use Rattle.osm_change.specs.declared.operations.Op.{Op};
ghost use Rattle.osm_change.specs.declared.reads.ReadFault.TheVariants.{NotFound, Redacted};
ghost use Rattle.osm_model.specs.declared.commands.Command.{Command};
ghost use Rattle.osm_model.specs.declared.commands.Entry.{Entry};
ghost use Rattle.osm_model.specs.declared.queries.Query.{Query};
ghost use Rattle.osm_model.specs.declared.states.State.{State};
ghost use Rattle.osm_model.specs.declared.uploads.Progress.{Progress};
ghost use Rattle.osm_model.specs.Act.{Effect, judge};
ghost use Rattle.osm_model.specs.Answered.{map_at};
ghost use Rattle.osm_model.specs.Ask.{ask};
ghost use Rattle.osm_model.specs.Attributed.{IsAttributed};
ghost use Rattle.osm_model.specs.Fold.{upload, made, all_pushed};
ghost use Rattle.osm_model.specs.Journal.{IsLegal, Later, after, replay, takes, entry_of};
ghost use Rattle.osm_model.specs.Past.{past, one_at, entries_by, without_marks};
ghost use Rattle.osm_model.specs.PastMap.{map_shown};
ghost use Rattle.osm_model.specs.Reads.{shown};
ghost use Rattle.osm_model.specs.Stamped.{IsStamped};
ghost use Rattle.osm_model.specs.Timely.{IsTimely};
ghost use Rattle.osm_model.specs.WorkedPast.{made_there, node_moved, then_redacted};

/// At every point of a legal journal, visible ways and relations name only visible elements.
pub fn points_are_consistent()
    ensures { (entries : List Entry) → IsLegal entries → (point : ℕ) → IsConsistent (map_at entries point).elements }
{}

/// No map that entries make, legal or not, keeps a moment past `MOMENT_LIMIT`.
pub fn moments_are_bounded()
    ensures { (entries : List Entry) → IsTimely (replay entries) }
{}

/// In every map that entries make, legal or not, the changeset of each version is there, and so is
/// each version that a changeset made.
pub fn versions_are_attributed()
    ensures { (entries : List Entry) → IsAttributed (replay entries) }
{}

/// In every map that entries make, legal or not, the stamps of a history never go back, and none is
/// past the map's last one.
pub fn versions_are_stamped_in_order()
    ensures { (entries : List Entry) → IsStamped (replay entries) }
{}

/// The map of a legal journal as it was at a stamp has the elements, marks aside, that the entries
/// up to that stamp make. These stand at the journal's front.
pub fn past_maps_are_replayed()
    ensures elements { (entries : List Entry) (stamp : ℕ) → IsLegal entries
        → without_marks (past (replay entries) stamp).elements ≡ without_marks (replay (entries_by stamp entries)).elements }
    ensures front { (entries : List Entry) (stamp : ℕ) → IsLegal entries
        → entries_by stamp entries ≡ take (length (entries_by stamp entries)) entries }
{}

/// A node that was made at 1700000010 and moved at 1700000020 is shown at 1700000015 as it was made,
/// unless that version was redacted since, and isn't known at 1700000009.
pub fn past_reads_are_as_told()
    ensures legal { IsLegal then_redacted }
    ensures made { one_at (replay node_moved) (key Node 1) 1700000015 ≡ Ok (shown (key Node 1) 1) }
    ensures moved { one_at (replay node_moved) (key Node 1) 1700000020 ≡ Ok (shown (key Node 1) 2) }
    ensures unknown { one_at (replay node_moved) (key Node 1) 1700000009 ≡ Err (NotFound (key Node 1) 0) }
    ensures redacted { one_at (replay then_redacted) (key Node 1) 1700000015 ≡ Err (Redacted (key Node 1) 1 1) }
{}

/// The map of the place where that node was made has it until it is moved, unless that version was
/// redacted since.
pub fn past_boxes_are_as_told()
    ensures before { map_shown (past (replay node_moved) 1700000009).elements made_there ≡ Ok [] }
    ensures made { map_shown (past (replay node_moved) 1700000015).elements made_there ≡ Ok (shown (key Node 1) 1 ∷ []) }
    ensures moved { map_shown (past (replay node_moved) 1700000020).elements made_there ≡ Ok [] }
    ensures redacted { map_shown (past (replay then_redacted) 1700000015).elements made_there ≡ Ok [] }
{}

/// Later entries take no id back, keep what versions hold, and leave consistent elements consistent.
pub fn later_maps_keep()
    ensures { (earlier later : State) → Later earlier later → Keeps earlier.elements later.elements }
{}

/// What all maps have that entries make, a map keeps with one entry more, taken or not.
pub fn entries_keep_maps()
    ensures elements { (map : State) (entry : Entry) → Keeps map.elements (after map entry).elements }
    ensures moments { (map : State) (entry : Entry) → IsTimely map → IsTimely (after map entry) }
    ensures stamped { (map : State) (entry : Entry) → IsStamped map → IsStamped (after map entry) }
    ensures attributed { (map : State) (entry : Entry) → IsAttributed map → IsAttributed (after map entry) }
{}

/// What a map accepts at a moment makes an entry that this map takes, whatever session and call
/// number it bears.
pub fn accepted_entries_are_taken()
    ensures { (map : State) (session call : ℕ) (user : User) (moment : ℕ) (command : Command) (done : Effect)
        → judge map user (stamp_after map.last moment) command ≡ Ok done
        → takes map (entry_of map session call user moment command) ≡ true }
{}

/// The elements that an upload leaves are those of before with the versions that it made, in their
/// order.
pub fn uploads_push_what_they_made()
    ensures { (map : State) (user : User) (stamp id : ℕ) (operations : List Op) (done : Progress)
        → upload map user stamp id operations ≡ Ok done
        → done.elements ≡ all_pushed map.elements (made done) }
{}

/// On a map whose moments are bounded, each moment that a query is answered has a text.
pub fn answers_have_moments()
    ensures { (map : State) (moment : ℕ) (query : Query) → IsTimely map → HasShownMoments (ask map moment query) }
{}

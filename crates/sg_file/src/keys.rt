//! The keys that each table of a game file may have.

ghost use Rattle.std.specs.Prelude.{◌≡◌, string_bytes, codes};
ghost use Rattle.std.specs.List.{list_all};
ghost use Rattle.std.specs.BTreeMap.{keys};
ghost use Rattle.toml.specs.View.{table_view};
ghost use Rattle.sg_format.specs.Steps.{passed};
ghost use Rattle.sg_model.specs.declared.reason.TheConstants.{UNKNOWN_KEY};
ghost use Rattle.sg_format.specs.Documents.{has_only};
ghost use Rattle.sg_format.specs.Lists.{is_named_key};
ghost use Rattle.sg_format.specs.Types.{is_security_type_key, is_matrix_type_key};
ghost use Rattle.sg_format.specs.GameFiles.{is_patrols_key, is_resources_key, is_matrix_key};
ghost use Rattle.sg_file.specs.Sections.{is_key_of};

use crate::fault::check;
use sg_game::{GameFault, Place};
use sg_model::reason::UNKNOWN_KEY;
use toml::Table;

/// The tables of a game file.
#[derive(Clone, Copy, Debug, PartialEq, Eq)]
pub(crate) enum Section {
    /// The top table of a game of identical patrols.
    Patrols,
    /// The top table of a game of listed resources.
    Resources,
    /// The top table of a game in matrix form.
    Matrix,
    /// A schedule.
    Schedule,
    /// A resource.
    Resource,
    /// A type of attacker in security form.
    SecurityType,
    /// A type of attacker in matrix form.
    MatrixType,
}

fn is_patrols_key(key: &str) -> bool
    ensures { result ≡ is_patrols_key key.now }
{
    key == "version"
        || key == "form"
        || key == "targets"
        || key == "scale"
        || key == "patrols"
        || key == "type"
}

fn is_resources_key(key: &str) -> bool
    ensures { result ≡ is_resources_key key.now }
{
    key == "version"
        || key == "form"
        || key == "targets"
        || key == "scale"
        || key == "schedule"
        || key == "resource"
        || key == "type"
}

fn is_matrix_key(key: &str) -> bool
    ensures { result ≡ is_matrix_key key.now }
{
    key == "version" || key == "form" || key == "rows" || key == "type"
}

fn is_schedule_key(key: &str) -> bool
    ensures { result ≡ is_named_key (codes "targets") key.now }
{
    key == "name" || key == "targets"
}

fn is_resource_key(key: &str) -> bool
    ensures { result ≡ is_named_key (codes "schedules") key.now }
{
    key == "name" || key == "schedules"
}

fn is_security_type_key(key: &str) -> bool
    ensures { result ≡ is_security_type_key key.now }
{
    key == "name" || key == "prior" || key == "payoffs"
}

fn is_matrix_type_key(key: &str) -> bool
    ensures { result ≡ is_matrix_type_key key.now }
{
    key == "name" || key == "prior" || key == "actions" || key == "leader" || key == "follower"
}

fn is_key_of(section: Section, key: &String) -> bool
    ensures { result ≡ is_key_of section (string_bytes key.now) }
{
    let key = key.as_str();
    match section {
        Section::Patrols => is_patrols_key(key),
        Section::Resources => is_resources_key(key),
        Section::Matrix => is_matrix_key(key),
        Section::Schedule => is_schedule_key(key),
        Section::Resource => is_resource_key(key),
        Section::SecurityType => is_security_type_key(key),
        Section::MatrixType => is_matrix_type_key(key),
    }
}

fn all_known(section: Section, table: &Table) -> bool
    ensures { result ≡ list_all (λ k. is_key_of section (string_bytes k)) (keys table.now) }
{
    table.keys().all(|key| is_key_of(section, key))
}

fn has_only(section: Section, table: &Table) -> bool
    ensures { result ≡ has_only (is_key_of section) (table_view table.now) }
{
    all_known(section, table)
}

/// Refuses a table with a key that it may not have.
pub(crate) fn known_keys(place: Place, section: Section, table: &Table) -> Result<(), GameFault>
    ensures { result ≡ passed (has_only (is_key_of section) (table_view table.now)) UNKNOWN_KEY place }
{
    check(has_only(section, table), UNKNOWN_KEY, place)
}

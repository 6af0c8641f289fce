//! What the configurations of chunk key encodings say.
ghost use Rattle.std.specs.Prelude.{◌≡◌, codes, map, false, option_map, IfSome};
ghost use Rattle.serde_json.specs.Find.{get_member};
ghost use Rattle.serde_json.specs.View.{view};
ghost use Rattle.zarr_grids_keys.specs.Paths.{ends_with_slash};
ghost use Rattle.zarr_grids_keys.specs.Separators.{separator_byte};
ghost use Rattle.zarr_grids_metadata.specs.Members.{has_only};
ghost use Rattle.zarr_grids_metadata.specs.Views.{point_of};
ghost use Rattle.zarr_grids_keys.specs.EncodingMetadata.{members_of, separator_of, separator_in, separator_among, suffix_of, suffix_in};

use crate::node_path::ends_with_slash;
use crate::separator::ChunkKeySeparator;
use serde_json::Value;
use zarr_grids_metadata::{MetadataV3, has_only, member};

/// The separator of a configuration that has only these fields.
pub(crate) fn separator_among(
    metadata: &MetadataV3,
    names: &[&str],
    usual: ChunkKeySeparator,
) -> Option<ChunkKeySeparator>
    ensures { option_map separator_byte result
        ≡ separator_among (map (λ name. name.now) names.now) (separator_byte usual)
        (members_of (point_of metadata.now)) }
{
    if configuration_has_only(metadata, names) {
        separator_in(configuration_member(metadata, "separator"), usual)
    } else {
        None
    }
}

/// The suffix of a configuration.
pub(crate) fn suffix_in(metadata: &MetadataV3) -> Option<&str>
    ensures value { option_map (λ suffix. suffix.now) result
        ≡ suffix_in (get_member (codes "suffix") (members_of (point_of metadata.now))) }
    ensures no_slash_at_end { IfSome result (λ suffix. ends_with_slash suffix.now ≡ false) }
{
    suffix_of(configuration_member(metadata, "suffix")?.as_str()?)
}

fn suffix_of(text: &str) -> Option<&str>
    ensures value { option_map (λ suffix. suffix.now) result ≡ suffix_of text.now }
    ensures no_slash_at_end { IfSome result (λ suffix. ends_with_slash suffix.now ≡ false) }
{
    if ends_with_slash(text.as_bytes()) {
        None
    } else {
        Some(text)
    }
}

fn separator_in(member: Option<&Value>, usual: ChunkKeySeparator) -> Option<ChunkKeySeparator>
    ensures { option_map separator_byte result
        ≡ separator_in (separator_byte usual) (option_map (λ v. view v.now) member.entry) }
{
    match member {
        Some(member) => separator_of(member.as_str()?),
        None => Some(usual),
    }
}

fn separator_of(text: &str) -> Option<ChunkKeySeparator>
    ensures { option_map separator_byte result ≡ separator_of text.now }
{
    match text {
        "/" => Some(ChunkKeySeparator::Slash),
        "." => Some(ChunkKeySeparator::Dot),
        _ => None,
    }
}

/// The member with this name of the configuration.
fn configuration_member<'m>(metadata: &'m MetadataV3, name: &str) -> Option<&'m Value>
    ensures { option_map (λ v. view v.now) result
        ≡ get_member name.now (members_of (point_of metadata.now)) }
{
    match metadata.configuration() {
        Some(members) => member(members, name),
        None => None,
    }
}

/// Whether the name of each member of the configuration is one of these.
fn configuration_has_only(metadata: &MetadataV3, names: &[&str]) -> bool
    ensures { result
        ≡ has_only (map (λ name. name.now) names.now) (members_of (point_of metadata.now)) }
{
    match metadata.configuration() {
        Some(members) => has_only(members, names),
        None => true,
    }
}

//! What the header of a module says of tags.
ghost use Rattle.std.specs.Prelude.{◌≡◌, ◌<◌, length, map, option_map, slice_get, Some};
ghost use Rattle.oer_module_names.specs.Finding.{module_place};
ghost use Rattle.oer_module_names.specs.Views.{modules_in};
ghost use Rattle.oer_module_syntax.specs.Tree.{module_of};
ghost use Rattle.oer_module_tags.specs.Headers.{are_for_tags, has_tags_in_brackets, is_automatic, tags_automatically};

use oer_module_names::{Names, Place};
use oer_module_syntax::{Module, Tags};

fn module_at<'m, 's, 't>(names: &Names<'m, 's, 't>, module: usize) -> &'m Module<'s, 't>
    requires { «module» < length (modules_in names.now) }
    ensures { slice_get (modules_in names.now) «module» ≡ Some (module_of result.now) }
{
    &names.modules()[module]
}

/// Where a module begins.
#[tactic(auto, unfolding(oer_module_names::specs::Finding::module_place))]
pub fn module_place(names: &Names<'_, '_, '_>, module: usize) -> Place
    requires { «module» < length (modules_in names.now) }
    ensures { result ≡ module_place (modules_in names.now) «module» }
{
    Place {
        module,
        at: module_at(names, module).at,
    }
}

/// Whether instructions in brackets are tags (X.680, 13.1: INSTRUCTIONS).
fn are_for_tags(instructions: Option<&str>) -> bool
    ensures { result ≡ are_for_tags (option_map (λ w. w.now) instructions.entry) }
{
    match instructions {
        Some(word) => word == "TAG",
        None => true,
    }
}

/// Whether brackets before a type hold a tag in this module, also where no `TAG:` stands in them.
#[tactic(auto, unfolding(crate::specs::Headers::has_tags_in_brackets))]
pub fn has_tags_in_brackets(names: &Names<'_, '_, '_>, module: usize) -> bool
    requires { «module» < length (modules_in names.now) }
    ensures { result ≡ has_tags_in_brackets (modules_in names.now) «module» }
{
    are_for_tags(module_at(names, module).instructions)
}

fn is_automatic(tags: Tags) -> bool
    ensures { result ≡ is_automatic tags }
{
    match tags {
        Tags::Automatic => true,
        _ => false,
    }
}

/// Whether AUTOMATIC TAGS stands in the header of this module (X.680, 13.2).
#[tactic(auto, unfolding(crate::specs::Headers::tags_automatically))]
pub fn tags_automatically(names: &Names<'_, '_, '_>, module: usize) -> bool
    requires { «module» < length (modules_in names.now) }
    ensures { result ≡ tags_automatically (modules_in names.now) «module» }
{
    is_automatic(module_at(names, module).tags)
}

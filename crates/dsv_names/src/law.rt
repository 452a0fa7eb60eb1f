// Names and values belong together.
ghost use Rattle.dsv_names.specs.Names.{AreNames};
ghost use Rattle.dsv_names.specs.Blocks.{block_name, blocks};
ghost use Rattle.dsv_names.specs.Fields.{field_name, fields};
ghost use Rattle.dsv_names.specs.ListNames.{list_name, list_names};
ghost use Rattle.dsv_names.specs.OverflowModes.{overflow_mode_name, overflow_modes};
ghost use Rattle.dsv_names.specs.Properties.{property_name, properties};
ghost use Rattle.dsv_names.specs.Realisations.{realisation_name, realisations};
ghost use Rattle.dsv_names.specs.Roundings.{rounding_name, roundings};
ghost use Rattle.dsv_names.specs.Settings.{setting_name, settings};
ghost use Rattle.dsv_names.specs.Wants.{wanted_name, wants};

/// The law of names: each value is found by its name, and a text that finds a value is its name. So
/// no two values of a type have one name.
#[tactic(auto, using(crate::proofs::NameLaws::name_laws))]
pub fn names_are_inverse()
    ensures realisations { AreNames realisation_name realisations }
    ensures roundings { AreNames rounding_name roundings }
    ensures overflow_modes { AreNames overflow_mode_name overflow_modes }
    ensures properties { AreNames property_name properties }
    ensures blocks { AreNames block_name blocks }
    ensures fields { AreNames field_name fields }
    ensures settings { AreNames setting_name settings }
    ensures list_names { AreNames list_name list_names }
    ensures wants { AreNames wanted_name wants }
{}

//! Laws of scripts.

ghost use Rattle.ntx_parse.specs.Laws as laws;

/// A script that has tokens has a tree or a fault.
pub fn each_script_is_decided()
    ensures { laws.EachScriptIsDecided }
{}

/// No script has two trees.
pub fn scripts_have_one_tree()
    ensures { laws.ScriptsHaveOneTree }
{}

/// No script has two faults.
pub fn scripts_have_one_fault()
    ensures { laws.ScriptsHaveOneFault }
{}

/// No script that has a fault has a tree.
pub fn refused_scripts_have_no_tree()
    ensures { laws.RefusedScriptsHaveNoTree }
{}

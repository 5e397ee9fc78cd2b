//! The parameters that are glue ("TeX: The Program", section 224).

ghost use Rattle.std.specs.Prelude.{◌≡◌, ◌↔◌, Some};
ghost use Rattle.ntx_item.specs.Parameters.{glue_name_of, glue_param_named};
ghost use Rattle.ntx_item.specs.declared.glue_param.GlueParam.{GlueParam};

/// A parameter that is glue. Its name in texts is the variant's in lower case. Its width is in scaled points; so are its
/// stretch and shrink, or of an infinite order in units of 2^-16 fil, fill or filll. All three are within 2^30-1 in absolute
/// value, and the orders are from 0 to 3.
#[derive(Clone, Copy, Debug, PartialEq, Eq)]
pub enum GlueParam {
    /// The distance of two baselines.
    Baselineskip,
    /// The glue between two lines that are too close for `baselineskip`.
    Lineskip,
    /// The distance of a page's top from the baseline of its first box.
    Topskip,
    /// The glue before a paragraph.
    Parskip,
    /// The glue at the left of each line.
    Leftskip,
    /// The glue at the right of each line.
    Rightskip,
    /// The glue that fills the last line.
    Parfillskip,
}

/// Each parameter.
const GLUE_PARAMS: [GlueParam; 7] = [
    GlueParam::Baselineskip,
    GlueParam::Lineskip,
    GlueParam::Topskip,
    GlueParam::Parskip,
    GlueParam::Leftskip,
    GlueParam::Rightskip,
    GlueParam::Parfillskip,
];

/// The first parameter whose name has these bytes.
fn first_named(name: &[u8]) -> Option<GlueParam>
    ensures { result ≡ glue_param_named name.now }
{
    GLUE_PARAMS
        .iter()
        .copied()
        .find(|g| g.name().as_bytes() == name)
}

impl GlueParam {
    /// Its name.
    pub fn name(self) -> &'static str
        ensures { result.now ≡ glue_name_of self }
    {
        match self {
            GlueParam::Baselineskip => "baselineskip",
            GlueParam::Lineskip => "lineskip",
            GlueParam::Topskip => "topskip",
            GlueParam::Parskip => "parskip",
            GlueParam::Leftskip => "leftskip",
            GlueParam::Rightskip => "rightskip",
            GlueParam::Parfillskip => "parfillskip",
        }
    }

    /// The parameter whose name has these bytes, if there is one.
    pub fn of_name(name: &[u8]) -> Option<GlueParam>
        ensures value { result ≡ glue_param_named name.now }
        ensures each { (g : GlueParam) → (result ≡ Some g) ↔ (name.now ≡ glue_name_of g) }
    {
        first_named(name)
    }
}

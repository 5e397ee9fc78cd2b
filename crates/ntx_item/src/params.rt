//! What the parameters of paragraphs and pages are set to ("TeX: The Program", sections 224, 236 and 247).

ghost use Rattle.std.specs.Prelude.{◌≡◌, ◌↔◌, IsOk, OnOk, OnErr};
ghost use Rattle.ntx_num.specs.Answer.{StepsAtOnce};
ghost use Rattle.ntx_item.specs.Parameters.{IsInRange, IsGlueInRange};
ghost use Rattle.ntx_item.specs.Settings.{value_of, with_value, glue_of, with_glue, put_step, put_glue_step, plain_settings, rigid, ChangesStandAlone};

use crate::glue::GlueSpec;
use crate::glue_param::GlueParam;
use crate::out_of_range::OutOfRange;
use crate::param::Param;
use std::marker::Model;

/// What the parameters are set to. Each is in its range, as [`Param`] and [`GlueParam`] state it. Dimensions are in scaled
/// points, and so is glue, but for stretch and shrink of an infinite order, which are in units of 2^-16 fil, fill or filll.
#[derive(Clone, Copy, Debug)]
pub struct Params {
    /// The greatest badness of a line in the first pass, which tries no hyphenation; below 0 there is no first pass.
    pub pretolerance: i64,
    /// The greatest badness that the later passes look for in a line.
    pub tolerance: i64,
    /// What each line adds to its badness before it is squared into demerits.
    pub linepenalty: i64,
    /// The penalty of a break at a discretionary whose pre-break list is not empty.
    pub hyphenpenalty: i64,
    /// The penalty of a break at a discretionary whose pre-break list is empty.
    pub exhyphenpenalty: i64,
    /// Demerits of a line whose fitness class is far from that of the line before.
    pub adjdemerits: i64,
    /// Demerits of two hyphenated lines in a row.
    pub doublehyphendemerits: i64,
    /// Demerits of a last line but one that is hyphenated.
    pub finalhyphendemerits: i64,
    /// The penalty between two lines.
    pub interlinepenalty: i64,
    /// The further penalty after the first line.
    pub clubpenalty: i64,
    /// The further penalty before the last line.
    pub widowpenalty: i64,
    /// The further penalty after a line that ends at a discretionary.
    pub brokenpenalty: i64,
    /// The least number of letters before a hyphen, from 1 to 63.
    pub lefthyphenmin: i64,
    /// The least number of letters after a hyphen, from 1 to 63.
    pub righthyphenmin: i64,
    /// The code of the hyphen's character, from 0 to 255, or -1 for none.
    pub hyphenchar: i64,
    /// The width of a line. In scaled points.
    pub hsize: i64,
    /// The stretch that the third pass gives to each line; there is none at 0 or less. In scaled points.
    pub emergencystretch: i64,
    /// The width of the box that begins an indented paragraph. In scaled points.
    pub parindent: i64,
    /// The least distance of two lines at which `baselineskip` decides. In scaled points.
    pub lineskiplimit: i64,
    /// The distance of two baselines.
    pub baselineskip: GlueSpec,
    /// The glue between two lines that are too close for `baselineskip`.
    pub lineskip: GlueSpec,
    /// The distance of a page's top from the baseline of its first box.
    pub topskip: GlueSpec,
    /// The glue before a paragraph.
    pub parskip: GlueSpec,
    /// The glue at the left of each line.
    pub leftskip: GlueSpec,
    /// The glue at the right of each line.
    pub rightskip: GlueSpec,
    /// The glue that fills the last line.
    pub parfillskip: GlueSpec,
}

impl Model for Params {
    ghost use Rattle.ntx_item.specs.Settings.{Settings};

    ghost Value = { Settings };

    ghost use Rattle.ntx_item.specs.ParamsView.{settings_seen, fields_of, IsLawful};

    ghost view = { settings_seen };

    ghost invariant = { IsLawful };

    ghost inverse = { fields_of };
}

/// Glue that neither stretches nor shrinks.
fn rigid(width: i64) -> GlueSpec
    ensures { result ≡ rigid width }
{
    GlueSpec {
        width,
        stretch: 0,
        stretch_order: 0,
        shrink: 0,
        shrink_order: 0,
    }
}

impl Params {
    /// The defaults: those of plain TeX ("The TeXbook", appendix B), but `parskip` does not stretch.
    pub fn plain() -> Params
        ensures { result ≡ plain_settings }
    {
        Params {
            pretolerance: 100,
            tolerance: 200,
            linepenalty: 10,
            hyphenpenalty: 50,
            exhyphenpenalty: 50,
            adjdemerits: 10_000,
            doublehyphendemerits: 10_000,
            finalhyphendemerits: 5_000,
            interlinepenalty: 0,
            clubpenalty: 150,
            widowpenalty: 150,
            brokenpenalty: 100,
            lefthyphenmin: 2,
            righthyphenmin: 3,
            hyphenchar: 45,
            hsize: 30_785_863,
            emergencystretch: 0,
            parindent: 1_310_720,
            lineskiplimit: 0,
            baselineskip: rigid(786_432),
            lineskip: rigid(65_536),
            topskip: rigid(655_360),
            parskip: rigid(0),
            leftskip: rigid(0),
            rightskip: rigid(0),
            parfillskip: GlueSpec {
                width: 0,
                stretch: 65_536,
                stretch_order: 1,
                shrink: 0,
                shrink_order: 0,
            },
        }
    }

    /// What the parameter `p` is.
    pub fn get(&self, p: Param) -> i64
        ensures value { result ≡ value_of self.now p }
        ensures in_range { IsInRange p result }
    {
        match p {
            Param::Pretolerance => self.pretolerance,
            Param::Tolerance => self.tolerance,
            Param::Linepenalty => self.linepenalty,
            Param::Hyphenpenalty => self.hyphenpenalty,
            Param::Exhyphenpenalty => self.exhyphenpenalty,
            Param::Adjdemerits => self.adjdemerits,
            Param::Doublehyphendemerits => self.doublehyphendemerits,
            Param::Finalhyphendemerits => self.finalhyphendemerits,
            Param::Interlinepenalty => self.interlinepenalty,
            Param::Clubpenalty => self.clubpenalty,
            Param::Widowpenalty => self.widowpenalty,
            Param::Brokenpenalty => self.brokenpenalty,
            Param::Lefthyphenmin => self.lefthyphenmin,
            Param::Righthyphenmin => self.righthyphenmin,
            Param::Hyphenchar => self.hyphenchar,
            Param::Hsize => self.hsize,
            Param::Emergencystretch => self.emergencystretch,
            Param::Parindent => self.parindent,
            Param::Lineskiplimit => self.lineskiplimit,
        }
    }

    /// What the parameter `g` is.
    pub fn get_glue(&self, g: GlueParam) -> GlueSpec
        ensures value { result ≡ glue_of self.now g }
        ensures in_range { IsGlueInRange result }
    {
        match g {
            GlueParam::Baselineskip => self.baselineskip,
            GlueParam::Lineskip => self.lineskip,
            GlueParam::Topskip => self.topskip,
            GlueParam::Parskip => self.parskip,
            GlueParam::Leftskip => self.leftskip,
            GlueParam::Rightskip => self.rightskip,
            GlueParam::Parfillskip => self.parfillskip,
        }
    }

    /// Sets the parameter `p` to a value in its range.
    fn assign(&mut self, p: Param, v: i64)
        requires { IsInRange p v }
        ensures { self.new ≡ with_value self.old p v }
    {
        match p {
            Param::Pretolerance => self.pretolerance = v,
            Param::Tolerance => self.tolerance = v,
            Param::Linepenalty => self.linepenalty = v,
            Param::Hyphenpenalty => self.hyphenpenalty = v,
            Param::Exhyphenpenalty => self.exhyphenpenalty = v,
            Param::Adjdemerits => self.adjdemerits = v,
            Param::Doublehyphendemerits => self.doublehyphendemerits = v,
            Param::Finalhyphendemerits => self.finalhyphendemerits = v,
            Param::Interlinepenalty => self.interlinepenalty = v,
            Param::Clubpenalty => self.clubpenalty = v,
            Param::Widowpenalty => self.widowpenalty = v,
            Param::Brokenpenalty => self.brokenpenalty = v,
            Param::Lefthyphenmin => self.lefthyphenmin = v,
            Param::Righthyphenmin => self.righthyphenmin = v,
            Param::Hyphenchar => self.hyphenchar = v,
            Param::Hsize => self.hsize = v,
            Param::Emergencystretch => self.emergencystretch = v,
            Param::Parindent => self.parindent = v,
            Param::Lineskiplimit => self.lineskiplimit = v,
        }
    }

    /// Sets the parameter `p` to `v`, and leaves the others as they were.
    ///
    /// # Refusals
    ///
    /// `OutOfRange` where `v` is outside the range of `p`, as [`Param`] states it. Nothing changes then.
    pub fn put(&mut self, p: Param, v: i64) -> Result<(), OutOfRange>
        ensures in_range { IsOk result ↔ IsInRange p v }
        ensures ok { OnOk result (self.new ≡ with_value self.old p v) }
        ensures err { OnErr result (self.new ≡ self.old) }
        ensures step { StepsAtOnce result self.old self.new (put_step p v self.old) }
    {
        if !p.accepts(v) {
            return Err(OutOfRange);
        }
        self.assign(p, v);
        Ok(())
    }

    /// Sets the parameter `g` to a glue in its range.
    fn assign_glue(&mut self, g: GlueParam, spec: GlueSpec)
        requires { IsGlueInRange spec }
        ensures { self.new ≡ with_glue self.old g spec }
    {
        match g {
            GlueParam::Baselineskip => self.baselineskip = spec,
            GlueParam::Lineskip => self.lineskip = spec,
            GlueParam::Topskip => self.topskip = spec,
            GlueParam::Parskip => self.parskip = spec,
            GlueParam::Leftskip => self.leftskip = spec,
            GlueParam::Rightskip => self.rightskip = spec,
            GlueParam::Parfillskip => self.parfillskip = spec,
        }
    }

    /// Sets the parameter `g` to `spec`, and leaves the others as they were.
    ///
    /// # Refusals
    ///
    /// `OutOfRange` where the width, the stretch or the shrink is beyond 2^30-1 in absolute value, or an order is above 3.
    /// Nothing changes then.
    pub fn put_glue(&mut self, g: GlueParam, spec: GlueSpec) -> Result<(), OutOfRange>
        ensures in_range { IsOk result ↔ IsGlueInRange spec }
        ensures ok { OnOk result (self.new ≡ with_glue self.old g spec) }
        ensures err { OnErr result (self.new ≡ self.old) }
        ensures step { StepsAtOnce result self.old self.new (put_glue_step g spec self.old) }
    {
        if !spec.is_in_range() {
            return Err(OutOfRange);
        }
        self.assign_glue(g, spec);
        Ok(())
    }
}

/// The law that a change of one parameter leaves all others.
pub fn changes_stand_alone()
    ensures { ChangesStandAlone }
{}

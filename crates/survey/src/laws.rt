// What is proved of a survey, and what holds its definitions. A law is a function without parameters, and its clause is the theorem.
ghost use Rattle.survey.specs.Pair.{SurveyParts};
ghost use Rattle.survey.specs.SurveyCases.{SurveyCases};

// The parts of a survey are what the original's pair gives, asked as a survey is.
pub fn survey_parts()
    ensures { SurveyParts }
{}

// The parts at their limits.
pub fn survey_cases()
    ensures { SurveyCases }
{}

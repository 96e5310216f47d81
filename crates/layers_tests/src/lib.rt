// Layers on a rule of a type of its own and on the built-in rules, against figures that were found apart from the code.
#![tactic(auto)]

mod own_rule;

pub use own_rule::Lopsided;
use rules::Rule;

#[cfg(test)]
mod tests {
    use crate::own_rule::Lopsided;
    use layers::{
        Layer, lay as lay_list, lowest_terms, mirror, panels, pile, refine, stretch, table_of,
    };
    use rules::{BuiltIn, Fault, Rule, Table};
    use std::process::Abort;
    use std::test::Fail;

    // What a rule tells; the weights are those at the stations 0 to the span.
    #[derive(Clone, Copy)]
    struct Figures {
        denominator: u64,
        degree: usize,
        symmetric: bool,
        ceiling: u64,
        weights: &'static [i64],
    }

    fn tells<R: Rule>(rt: &impl Abort, rule: &R, figures: &Figures) {
        assert_eq!(rt; rule.denominator(), figures.denominator);
        assert_eq!(rt; rule.degree(), figures.degree);
        assert_eq!(rt; rule.is_symmetric(), figures.symmetric);
        assert_eq!(rt; rule.ceiling(), figures.ceiling);
        assert_eq!(rt; rule.span() + 1, figures.weights.len());
        for (station, weight) in figures.weights.iter().enumerate() {
            assert_eq!(rt; rule.weight(station), *weight);
        }
        assert_eq!(rt; rule.weight(figures.weights.len()), 0);
        assert_eq!(rt; rule.weight(usize::MAX), 0);
    }

    // One layer by the call that is named for it.
    fn lay<R: Rule + Drop>(below: R, layer: Layer) -> Result<Table, Fault> {
        match layer {
            Layer::Panels(count) => panels(below, count),
            Layer::Stretch(count) => stretch(below, count),
            Layer::Mirror => Ok(mirror(below)),
            Layer::Refinement => refine(below),
            Layer::LowestTerms => Ok(lowest_terms(below)),
        }
    }

    const ON_OWN_RULE: [(Layer, Figures); 5] = [
        (
            Layer::Panels(2),
            Figures {
                denominator: 8,
                degree: 2,
                symmetric: false,
                ceiling: 82,
                weights: &[8, -6, 24, 6, -6, 24, -2],
            },
        ),
        (
            Layer::Stretch(2),
            Figures {
                denominator: 8,
                degree: 2,
                symmetric: false,
                ceiling: 82,
                weights: &[16, 0, -12, 0, 48, 0, -4],
            },
        ),
        (
            Layer::Mirror,
            Figures {
                denominator: 8,
                degree: 2,
                symmetric: false,
                ceiling: 41,
                weights: &[-2, 24, -6, 8],
            },
        ),
        (
            Layer::Refinement,
            Figures {
                denominator: 56,
                degree: 3,
                symmetric: false,
                ceiling: 738,
                weights: &[48, -48, 204, 48, -96, 192, -12],
            },
        ),
        (
            Layer::LowestTerms,
            Figures {
                denominator: 4,
                degree: 2,
                symmetric: false,
                ceiling: 20,
                weights: &[4, -3, 12, -1],
            },
        ),
    ];

    #[test]
    fn each_layer_on_an_own_rule(rt: HostRuntime) -> Result<(), Fail> {
        for (layer, figures) in &ON_OWN_RULE {
            tells(&rt, &lay(Lopsided, *layer)?, figures);
            tells(&rt, &pile(Lopsided, &[*layer])?, figures);
        }
        Ok(())
    }

    const TWENTY: [Layer; 20] = [
        Layer::Mirror,
        Layer::Stretch(2),
        Layer::Mirror,
        Layer::Mirror,
        Layer::LowestTerms,
        Layer::Stretch(1),
        Layer::Panels(1),
        Layer::Refinement,
        Layer::Mirror,
        Layer::LowestTerms,
        Layer::Panels(2),
        Layer::LowestTerms,
        Layer::Mirror,
        Layer::Panels(1),
        Layer::Stretch(1),
        Layer::Mirror,
        Layer::LowestTerms,
        Layer::Mirror,
        Layer::Panels(1),
        Layer::Mirror,
    ];

    const UNDER_TWENTY: Figures = Figures {
        denominator: 7,
        degree: 3,
        symmetric: false,
        ceiling: 360,
        weights: &[
            12, 0, -12, 0, 51, 0, 12, 0, -24, 0, 48, 0, 9, 0, -12, 0, 51, 0, 12, 0, -24, 0, 48, 0,
            -3,
        ],
    };

    #[test]
    fn twenty_layers_on_an_own_rule(rt: HostRuntime) -> Result<(), Fail> {
        tells(&rt, &pile(Lopsided, &TWENTY)?, &UNDER_TWENTY);
        let mut refused = TWENTY;
        refused[19] = Layer::Panels(43);
        refusal(&rt, pile(Lopsided, &refused), 7, 20)
    }

    // Other crates of tests have the like: a crate for a few lines would stand below them all.
    fn refusal<T: Drop>(
        rt: &impl Abort,
        made: Result<T, Fault>,
        cause: u8,
        place: usize,
    ) -> Result<(), Fail> {
        match made {
            Ok(_) => Err(Fail::new("made")),
            Err(fault) => {
                assert_eq!(rt; fault.cause.number(), cause);
                assert_eq!(rt; fault.layer.name(), "LAYER");
                assert_eq!(rt; fault.place, place);
                Ok(())
            }
        }
    }

    const REFINE: Layer = Layer::Refinement;

    // Codes and causes are numbers here, as an order has them and a report prints them.

    // Layers on the built-in rule of a code, the sizes of the rule that they make, and the greatest common divisor of its denominator and weights.
    #[derive(Clone, Copy)]
    struct Made {
        code: u8,
        layers: &'static [Layer],
        span: usize,
        degree: usize,
        denominator: u64,
        ceiling: u64,
        divisor: u32,
    }

    fn sized<R: Rule>(rt: &impl Abort, rule: &R, case: &Made) {
        assert_eq!(rt; rule.span(), case.span);
        assert_eq!(rt; rule.degree(), case.degree);
        assert_eq!(rt; rule.denominator(), case.denominator);
        assert_eq!(rt; rule.ceiling(), case.ceiling);
    }

    // The mirror image of a rule has its sizes and reads from the other end; in lowest terms it is divided by the divisor.
    fn turned(rt: &impl Abort, case: &Made) -> Result<(), Fail> {
        let base = BuiltIn::try_from(case.code)?;
        let rule = pile(base, case.layers)?;
        sized(rt, &rule, case);
        let image = mirror(pile(base, case.layers)?);
        sized(rt, &image, case);
        let lowest = lowest_terms(pile(base, case.layers)?);
        assert!(rt; case.divisor > 0);
        assert_eq!(rt;
            lowest.denominator(),
            case.denominator / case.divisor as u64
        );
        assert_eq!(rt; lowest.ceiling(), case.ceiling / case.divisor as u64);
        let span = rule.span();
        // by number, as a rule is asked
        for station in 0..=span {
            let weight = rule.weight(station);
            assert_eq!(rt; image.weight(span - station), weight);
            assert_eq!(rt;
                lowest.weight(station).wrapping_mul(case.divisor as i64),
                weight
            );
        }
        Ok(())
    }

    const WITHIN_LIMITS: [Made; 14] = [
        Made {
            code: 1,
            layers: &[REFINE, REFINE, REFINE, REFINE, REFINE],
            span: 32,
            degree: 11,
            denominator: 1479104550,
            ceiling: 93147080000,
            divisor: 2,
        },
        Made {
            code: 1,
            layers: &[REFINE, REFINE, REFINE, REFINE, REFINE, Layer::Panels(11)],
            span: 352,
            degree: 11,
            denominator: 1479104550,
            ceiling: 1024617880000,
            divisor: 2,
        },
        Made {
            code: 1,
            layers: &[REFINE, REFINE, REFINE, REFINE, REFINE, Layer::Stretch(11)],
            span: 352,
            degree: 11,
            denominator: 1479104550,
            ceiling: 1024617880000,
            divisor: 22,
        },
        Made {
            code: 7,
            layers: &[REFINE],
            span: 14,
            degree: 9,
            denominator: 4406400,
            ceiling: 62173440,
            divisor: 2,
        },
        Made {
            code: 8,
            layers: &[REFINE, Layer::Panels(64)],
            span: 1024,
            degree: 11,
            denominator: 14501025,
            ceiling: 21591321600,
            divisor: 1,
        },
        Made {
            code: 1,
            layers: &[Layer::Panels(1)],
            span: 1,
            degree: 1,
            denominator: 2,
            ceiling: 2,
            divisor: 1,
        },
        Made {
            code: 1,
            layers: &[Layer::Stretch(1)],
            span: 1,
            degree: 1,
            denominator: 2,
            ceiling: 2,
            divisor: 1,
        },
        Made {
            code: 1,
            layers: &[Layer::Panels(1024)],
            span: 1024,
            degree: 1,
            denominator: 2,
            ceiling: 2048,
            divisor: 1,
        },
        Made {
            code: 1,
            layers: &[Layer::Stretch(1024)],
            span: 1024,
            degree: 1,
            denominator: 2,
            ceiling: 2048,
            divisor: 2,
        },
        Made {
            code: 3,
            layers: &[Layer::Panels(341)],
            span: 1023,
            degree: 3,
            denominator: 8,
            ceiling: 8184,
            divisor: 1,
        },
        Made {
            code: 9,
            layers: &[Layer::Panels(512)],
            span: 1024,
            degree: 1,
            denominator: 1,
            ceiling: 1024,
            divisor: 1,
        },
        Made {
            code: 1,
            layers: &[Layer::Panels(512), REFINE],
            span: 1024,
            degree: 3,
            denominator: 6,
            ceiling: 10240,
            divisor: 2,
        },
        Made {
            code: 10,
            layers: &[Layer::Panels(1024)],
            span: 1024,
            degree: 0,
            denominator: 1,
            ceiling: 1024,
            divisor: 1,
        },
        Made {
            code: 10,
            layers: &[REFINE, REFINE, REFINE, REFINE, REFINE, REFINE, REFINE],
            span: 128,
            degree: 7,
            denominator: 78129765,
            ceiling: 81284860800,
            divisor: 1,
        },
    ];

    #[test]
    fn sizes_up_to_the_limits(rt: HostRuntime) -> Result<(), Fail> {
        for case in &WITHIN_LIMITS {
            turned(&rt, case)?;
        }
        Ok(())
    }

    // The built-in rules are in lowest terms.
    #[test]
    fn every_built_in_rule_turned(rt: HostRuntime) -> Result<(), Fail> {
        // by number, as an order has them
        for code in 1..=10 {
            let base = BuiltIn::try_from(code)?;
            turned(
                &rt,
                &Made {
                    code,
                    layers: &[],
                    span: base.span(),
                    degree: base.degree(),
                    denominator: base.denominator(),
                    ceiling: base.ceiling(),
                    divisor: 1,
                },
            )?;
        }
        Ok(())
    }

    // Layers on the built-in rule of a code; the one at the place is refused.
    #[derive(Clone, Copy)]
    struct Refused {
        code: u8,
        layers: &'static [Layer],
        cause: u8,
        place: usize,
    }

    const BEYOND_LIMITS: [Refused; 20] = [
        Refused {
            code: 1,
            layers: &[REFINE, REFINE, REFINE, REFINE, REFINE, Layer::Panels(12)],
            cause: 9,
            place: 6,
        },
        Refused {
            code: 1,
            layers: &[REFINE, REFINE, REFINE, REFINE, REFINE, Layer::Stretch(12)],
            cause: 9,
            place: 6,
        },
        Refused {
            code: 1,
            layers: &[REFINE, REFINE, REFINE, REFINE, REFINE, REFINE],
            cause: 8,
            place: 6,
        },
        Refused {
            code: 1,
            layers: &[
                REFINE,
                REFINE,
                REFINE,
                REFINE,
                REFINE,
                Layer::Panels(11),
                REFINE,
            ],
            cause: 8,
            place: 7,
        },
        Refused {
            code: 7,
            layers: &[REFINE, REFINE],
            cause: 9,
            place: 2,
        },
        Refused {
            code: 8,
            layers: &[REFINE, REFINE],
            cause: 8,
            place: 2,
        },
        Refused {
            code: 8,
            layers: &[REFINE, Layer::Panels(65)],
            cause: 7,
            place: 2,
        },
        Refused {
            code: 8,
            layers: &[REFINE, Layer::Panels(64), REFINE],
            cause: 7,
            place: 3,
        },
        Refused {
            code: 1,
            layers: &[Layer::Panels(0)],
            cause: 6,
            place: 1,
        },
        Refused {
            code: 1,
            layers: &[Layer::Stretch(0)],
            cause: 6,
            place: 1,
        },
        Refused {
            code: 1,
            layers: &[Layer::Mirror, Layer::Panels(0)],
            cause: 6,
            place: 2,
        },
        Refused {
            code: 2,
            layers: &[
                Layer::LowestTerms,
                Layer::Mirror,
                Layer::Stretch(0),
                Layer::Panels(usize::MAX),
            ],
            cause: 6,
            place: 3,
        },
        Refused {
            code: 1,
            layers: &[Layer::Panels(1025)],
            cause: 7,
            place: 1,
        },
        Refused {
            code: 1,
            layers: &[Layer::Panels(usize::MAX)],
            cause: 7,
            place: 1,
        },
        Refused {
            code: 1,
            layers: &[Layer::Stretch(1025)],
            cause: 7,
            place: 1,
        },
        Refused {
            code: 1,
            layers: &[Layer::Stretch(usize::MAX)],
            cause: 7,
            place: 1,
        },
        Refused {
            code: 3,
            layers: &[Layer::Panels(342)],
            cause: 7,
            place: 1,
        },
        Refused {
            code: 9,
            layers: &[Layer::Panels(513)],
            cause: 7,
            place: 1,
        },
        Refused {
            code: 1,
            layers: &[Layer::Panels(513), REFINE],
            cause: 7,
            place: 2,
        },
        Refused {
            code: 10,
            layers: &[
                REFINE,
                REFINE,
                REFINE,
                REFINE,
                REFINE,
                REFINE,
                REFINE,
                REFINE,
                Layer::Mirror,
                Layer::Panels(0),
            ],
            cause: 9,
            place: 8,
        },
    ];

    // The pile is refused at the place, and the layer alone at place 0.
    fn stopped(rt: &impl Abort, case: &Refused) -> Result<(), Fail> {
        let base = BuiltIn::try_from(case.code)?;
        refusal(rt, pile(base, case.layers), case.cause, case.place)?;
        assert!(rt; case.place > 0 && case.place <= case.layers.len());
        let below = pile(base, &case.layers[0..case.place - 1])?;
        refusal(rt, lay(below, case.layers[case.place - 1]), case.cause, 0)
    }

    #[test]
    fn refusals(rt: HostRuntime) -> Result<(), Fail> {
        for case in &BEYOND_LIMITS {
            stopped(&rt, case)?;
        }
        Ok(())
    }

    // A refusal in the middle of a list: the layers before it stay on the table.
    #[test]
    fn layers_on_a_table(rt: HostRuntime) -> Result<(), Fail> {
        let simpson = Figures {
            denominator: 3,
            degree: 3,
            symmetric: true,
            ceiling: 6,
            weights: &[1, 4, 1],
        };
        let doubled = Figures {
            denominator: 3,
            degree: 3,
            symmetric: true,
            ceiling: 12,
            weights: &[1, 4, 2, 4, 1],
        };
        let mut table = table_of(BuiltIn::Simpson);
        tells(&rt, &table, &simpson);
        lay_list(&mut table, &[])?;
        tells(&rt, &table, &simpson);
        let list = [Layer::Panels(2), Layer::Stretch(0), Layer::Panels(3)];
        refusal(&rt, lay_list(&mut table, &list), 6, 2)?;
        tells(&rt, &table, &doubled);
        Ok(())
    }
}

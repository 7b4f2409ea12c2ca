use crate::runs::{count_lines, file, ran};
use pallet_top::Code;
use std::test::Fail;

/// The rows of the dozen orders among the examples.
pub const DOZEN: &str = "\
    ,gap\n\
    EUR-400,1200,800,400,300,220,8000,1600,1000000,70,1,100,0\n\
    EUR-600,1200,800,600,400,250,12000,1750,1200000,60,0,100,0\n\
    EUR-380,1200,800,380,280,200,7500,1600,1000000,60,0,60,2\n\
    EUR-COFFEE,1200,800,310,230,180,5200,1450,900000,50,1,100,0\n\
    EUR-WINE,1200,800,330,250,310,14500,1500,1100000,70,0,75,0\n\
    EUR-SOAP,1200,800,390,260,150,6100,1300,850000,0,0,50,5\n\
    ISO-400,1200,1000,400,300,220,8000,1700,1300000,80,1,100,0\n\
    ISO-TINS,1200,1000,306,204,120,9500,1400,1000000,50,0,100,0\n\
    ISO-CEREAL,1200,1000,490,330,280,2900,2000,1000000,60,0,60,3\n\
    ISO-JUICE,1200,1000,265,196,240,12300,1450,1000000,60,1,60,0\n\
    ISO-PAPER,1200,1000,430,310,240,11800,1800,1250000,70,0,100,0\n\
    DRUM-GASKET,1200,800,1300,900,90,2500,1200,500000,0,0,100,0";

// The seven cases of a cereal, with their mirrored and turned forms, stack and drawing.
const CEREAL: &str = "\
    \n\
    entry 9\n\
    id ISO-CEREAL\n\
    order 1200 1000 490 330 280 2900 2000 1000000 60 0 60 3\n\
    reduced 7 6 3 2\n\
    count 7\n\
    bound 7\n\
    status optimal\n\
    cert weighted\n\
    weighting area\n\
    tree .\n\
    layers 4\n\
    layer 1 same\n\
    0 0 L\n\
    493 0 S\n\
    826 0 S\n\
    0 333 L\n\
    493 493 S\n\
    826 493 S\n\
    0 666 L\n\
    layer 2 mirror-x\n\
    44 0 S\n\
    377 0 S\n\
    710 0 L\n\
    710 333 L\n\
    44 493 S\n\
    377 493 S\n\
    710 666 L\n\
    layer 3 mirror-y\n\
    0 4 L\n\
    493 17 S\n\
    826 17 S\n\
    0 337 L\n\
    493 510 S\n\
    826 510 S\n\
    0 670 L\n\
    layer 4 half-turn\n\
    710 4 L\n\
    44 17 S\n\
    377 17 S\n\
    710 337 L\n\
    44 510 S\n\
    377 510 S\n\
    710 670 L\n\
    allowed 7\n\
    stack 1 2 1 2 1 2 1\n\
    end\n\
    drawing 7 6\n\
    gggeeff\n\
    gggeeff\n\
    dddeeff\n\
    dddbbcc\n\
    aaabbcc\n\
    aaabbcc\n";

// What stands after the only layer of its kind, whose rules no stack of it meets.
const ONE_WAY: &str = "\
    \n\
    allowed 7\n\
    unmet\n\
    rule contact together\n\
    rule support alone\n\
    end\n\
    drawing 12 8\n\
    eeefffggghhh\n\
    eeefffggghhh\n\
    eeefffggghhh\n\
    eeefffggghhh\n\
    aaabbbcccddd\n\
    aaabbbcccddd\n\
    aaabbbcccddd\n\
    aaabbbcccddd\n";

// What stands after the layers of the coffee, which interlock: mirrored along y, each layer stands on the other.
const COFFEE: &str = "\nallowed 8\nstack 1 3 1 3 1 3 1 3\nend\n";

// What is found in the report of the dozen.
const VERDICTS: &str =
    "entry 1 yes\nentry 2 yes\nentry 3 yes\nentry 4 yes\nentry 5 yes\nentry 6 yes\nentry 7 yes\nentry 8 yes\nentry 9 yes\nentry 10 yes\nentry 11 yes\nentry 12 refused\ndone 12\n";

// The lines that the README explains.
#[test]
fn dozen_orders(rt: HostRuntime) -> Result<(), Fail> {
    let alloc = rt.alloc();
    let drawn = ran(&rt, alloc, "plan --draw", &file(alloc, DOZEN)?)?;
    let Ok(text) = str::from_utf8(&drawn.written) else {
        return Err("no text".into());
    };
    assert!(rt; drawn.code == Code::Findings);
    assert!(rt; text.contains(CEREAL) && text.contains(COFFEE) && text.contains(ONE_WAY));
    assert_eq!(rt; count_lines(text, "status optimal"), 11);
    assert_eq!(rt; count_lines(text, "unmet"), 1);
    assert!(rt; text.ends_with("\nentry 12\nrefused DoesNotFit\nend\ndone 12\n"));
    let plain = ran(&rt, alloc, "plan", &file(alloc, DOZEN)?)?;
    let judged = ran(&rt, alloc, "check --workers 4", &plain.written)?;
    assert!(rt; judged.code == Code::Done && judged.written.as_slice() == VERDICTS.as_bytes());
    Ok(())
}

// The rows of one case on four pallets among the examples.
const ONE_CASE: &str = "\
    ,gap\n\
    EUR,1200,800,330,250,310,14500,1500,1100000,0,0,100,0\n\
    ISO,1200,1000,330,250,310,14500,1500,1100000,0,0,100,0\n\
    US,1016,1219,330,250,310,14500,1500,1100000,0,0,100,0\n\
    SQUARE,1140,1140,330,250,310,14500,1500,1100000,0,0,100,0";

// What the README says of them.
#[test]
fn four_pallets(rt: HostRuntime) -> Result<(), Fail> {
    let alloc = rt.alloc();
    let chosen = ran(&rt, alloc, "choose", &file(alloc, ONE_CASE)?)?;
    let Ok(text) = str::from_utf8(&chosen.written) else {
        return Err("no text".into());
    };
    assert!(rt;
        chosen.code == Code::Done && text.starts_with("pallet-choice 1\nentry 1\nid EUR\n")
    );
    assert!(rt; text.ends_with("\nend\nchosen 2 count 14\ndone 4\n"));
    let counts = ["count 10", "count 14", "count 13"];
    let seen = counts.map(|line| count_lines(text, line));
    assert!(rt; seen == [1, 2, 1] && count_lines(text, "status optimal") == 4);
    let judged = ran(&rt, alloc, "check-choice", &chosen.written)?;
    assert!(rt; judged.code == Code::Done);
    assert!(rt;
        judged.written.as_slice()
            == b"entry 1 yes\nentry 2 yes\nentry 3 yes\nentry 4 yes\nchoice yes\ndone 4\n".as_slice()
    );
    Ok(())
}

//! Runs of `explain` over a trail, and what is asserted of how they end.
use bl_explaining_trail::explain::explain_trail_on;
use bl_explaining_trail::question::TrailQuestion;
use bl_question::question::Question;
use bl_wire::watched::Watched;
use std::alloc::{AllocGlobal, Global};
use std::process::Abort;

/// The setup of a records office: counsel, an analyst, the press office, personnel, a records officer and an auditor.
pub const OFFICE: &str = "# A records office: who, what, and who may.\n\
ranks public internal secret\n\
categories staff merger\n\
# counsel, an analyst, the press office, personnel, and the records officer\n\
subject eve greatest secret{staff,merger} current secret{merger}\n\
subject ann greatest secret{merger} current internal\n\
subject bob greatest internal current public\n\
subject tom greatest internal{staff} current internal{staff}\n\
subject ida greatest secret{staff,merger} current public trusted admin\n\
subject aud greatest secret{staff,merger} current secret{staff,merger}\n\
document press public \"Results on Friday.\"\n\
document minutes internal \"Quorum was met.\"\n\
document offer secret{merger} \"Draft of the offer.\"\n\
document payroll internal{staff} \"1 4200; 2 3900\"\n\
document ledger secret{staff,merger} \"\"\n\
reserve board secret{merger}\n\
allow eve press r\n\
allow eve minutes r a\n\
allow eve offer r w\n\
allow ann press r\n\
allow ann minutes r w\n\
allow ann offer r a\n\
allow ann ledger a\n\
allow bob press r w\n\
allow bob minutes r\n\
allow tom press r\n\
allow tom payroll r w\n\
allow tom ledger a\n\
allow ida press r w\n\
allow ida minutes r\n\
allow ida offer r\n\
allow aud ledger r\n";

/// A day in that office, with rules, refusals, children and a loss.
pub const DAY: &str = "trail 2\n\
limit 10000\n\
open bob\n\
line 0 1 when read press do show press;end\n\
start 0 run\n\
end 0 done \"Results on Friday.\"\n\
open ann\n\
line 1 1 when read minutes,read press do show minutes;show press;end\n\
line 0 2 when read press do show press;end\n\
start 1 run\n\
start 2 run\n\
end 2 done \"Results on Friday.\"\n\
end 1 done \"Quorum was met.\" \"Results on Friday.\"\n\
line 0 3 when read minutes do show minutes;end\n\
start 3 denied star bob minutes\n\
line 0 4 current internal\n\
start 4 rule\n\
line 0 5 when read minutes do show minutes;end\n\
start 5 run\n\
end 5 done \"Quorum was met.\"\n\
line 0 6 when write press do set press\"Quorum was met.\";end\n\
start 6 denied star bob press\n\
line 0 7 when read offer do show offer;end\n\
start 7 denied simple bob offer\n\
line 0 8 when read offer do show offer;end\n\
start 8 denied simple bob offer\n\
line 0 9 when read offer do show offer;end\n\
start 9 denied simple bob offer\n\
open eve\n\
line 2 1 when write offer,read press do if offer has\"Draft\"then add offer\" Price 41.50.\";end;show offer;end\n\
start 10 run\n\
line 1 2 when append offer do add offer\" See minutes.\";end\n\
end 10 done \"Draft of the offer. Price 41.50.\"\n\
start 11 run\n\
end 11 done\n\
open tom\n\
line 3 1 when write payroll,append ledger do add payroll\"; 3 5100\";add ledger\"payroll changed by tom. \";end\n\
start 12 run\n\
end 12 done\n\
line 3 2 when read minutes do show minutes;end\n\
start 13 denied discretionary tom minutes\n\
open ida\n\
line 4 1 give bob offer r\n\
start 14 rule\n\
line 4 2 create board\n\
start 15 rule\n\
line 4 3 give eve board w\n\
start 16 rule\n\
line 4 4 when read offer,write press do set press\"Talks are under way.\";show offer;end\n\
start 17 run\n\
end 17 done \"Draft of the offer. Price 41.50. See minutes.\"\n\
line 2 2 when write board do set board\"Approve at 41.50.\";show board;end\n\
start 18 run\n\
end 18 done \"Approve at 41.50.\"\n\
line 2 3 when read board do if board has\"41.50\"then spawn when append minutes do add minutes\"!\";end;end;end\n\
start 19 denied discretionary eve board\n\
line 2 4 when read offer do if offer has\"41.50\"then spawn when read press do show press;end;spawn when append minutes do add minutes\" yes\";end;end;end\n\
line 2 5 current internal\n\
start 20 run\n\
end 20 done\n\
start 21 rule\n\
start 22 run\n\
end 22 done \"Talks are under way.\"\n\
start 23 denied carry eve minutes\n\
line 2 6 when append minutes do add minutes\" Counsel heard.\";end\n\
start 24 run\n\
end 24 done\n\
line 1 3 current secret{merger}\n\
start 25 rule\n\
line 1 4 when read offer do show offer;end\n\
line 2 7 when read press do show press;end\n\
start 26 run\n\
start 27 run\n\
end 27 done \"Talks are under way.\"\n\
lost 26\n\
line 1 5 when read offer do show offer;end\n\
start 28 run\n\
end 28 done \"Draft of the offer. Price 41.50. See minutes.\"\n\
line 3 3 classify payroll internal\n\
start 29 denied admin tom payroll\n\
line 4 5 classify minutes public\n\
start 30 rule\n\
line 0 10 current public\n\
start 31 rule\n\
line 0 11 when read minutes,write press do copy minutes to press;show press;end\n\
start 32 run\n\
end 32 done \"Quorum was met. Counsel heard.\"\n\
line 4 6 rescind bob offer r\n\
start 33 rule\n\
line 4 7 delete board\n\
start 34 rule\n\
line 2 8 when read board do show board;end\n\
start 35 denied absent eve board\n\
open aud\n\
line 5 1 when read ledger do show ledger;end\n\
start 36 run\n\
end 36 done \"payroll changed by tom. \"\n\
line 3 4 when read payroll do show payroll;end\n\
start 37 run\n\
stop\n";

/// How a run ended: its status, what it wrote, and what it said.
#[derive(Drop)]
struct Ended {
    status: u8,
    written: Vec<u8>,
    said: Vec<u8>,
}

/// A question over the office's setup, of a line, where so many events have happened.
pub fn asks<'a>(at: Option<u64>, subject: &'a str, wish: &'a [&'a str]) -> TrailQuestion<'a> {
    TrailQuestion {
        question: Question {
            path: "office.setup",
            carried: None,
            subject,
            wish,
        },
        at,
    }
}

/// A run over the office's setup and a trail.
fn run(alloc: Global, setup: &str, trail: &str, asked: &TrailQuestion<'_>) -> Ended {
    let mut writer = Watched::new(Vec::new(alloc));
    let mut errors = Watched::new(Vec::new(alloc));
    let status = explain_trail_on(
        alloc,
        setup.as_bytes(),
        trail.as_bytes(),
        asked,
        &mut writer,
        &mut errors,
    );
    Ended {
        status,
        written: writer.into_inner(),
        said: errors.into_inner(),
    }
}

/// Asserts that a run over the office's day tells this, with this status, and says nothing.
pub fn assert_tells<R: AllocGlobal + Abort>(
    rt: &R,
    asked: &TrailQuestion<'_>,
    status: u8,
    text: &str,
) {
    let ended = run(rt.alloc(), OFFICE, DAY, asked);
    assert_eq!(rt; ended.status, status);
    assert!(rt; ended.written.as_slice() == text.as_bytes(), "{text}");
    assert!(rt; ended.said.is_empty());
}

/// Asserts that a run over a setup and a trail ends with this status, says these words, and writes nothing.
pub fn assert_says<R: AllocGlobal + Abort>(
    rt: &R,
    setup: &str,
    trail: &str,
    asked: &TrailQuestion<'_>,
    status: u8,
    words: &str,
) {
    let ended = run(rt.alloc(), setup, trail, asked);
    assert_eq!(rt; ended.status, status);
    assert!(rt; ended.said.as_slice() == words.as_bytes(), "{words}");
    assert!(rt; ended.written.is_empty());
}

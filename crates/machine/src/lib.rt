// The public calls: script, net and request are any byte strings. Checks run in number order; the lent net is written only where a call is
// done, so a refusal leaves every byte. Script and net are two parameters, as C lends them.
#![tactic(auto)]

ghost use Rattle.std.specs.Prelude.{◌≡◌, true, false, MatchResult};
ghost use Rattle.requests.specs.Answers.{in_range};
ghost use Rattle.requests.specs.Requests.{asked, is_done};
ghost use Rattle.step.specs.Lent.{told, lent_after};
ghost use Rattle.machine.specs.Calls.{script_in, net_in, image_answer, GoodImages, served, reply};

use accept::accept;
use images::net_image::{NetBytes, net_formed};
use images::script_image::{ScriptBytes, script_formed};
use requests::{Answer, Code, Request, Told, read_request, refused};
use rollback::{roll, rollback};
use step::backward::backward;
use step::forward::forward;

pub mod asks;

// ---- the images

// The bytes of a script and of a net, where both have their form and the net is accepted; otherwise the answer, 1 or 2.
fn images_in<'s, 'n>(
    script: &'s [u8],
    net: &'n [u8],
) -> Result<(&'s ScriptBytes, &'n NetBytes), Answer>
    ensures { MatchResult result (λ p. GoodImages script.now net.now × (p.0.now ≡ script.now) × (p.1.now ≡ net.now)) (λ a. (a ≡ image_answer script.now net.now) × (is_done a ≡ false)) }
{
    let script = match <&ScriptBytes>::try_from(script) {
        Ok(script) if script_formed(script) => script,
        _ => return Err(Answer::BadScript),
    };
    let net = match <&NetBytes>::try_from(net) {
        Ok(net) if net_formed(net) => net,
        _ => return Err(Answer::BadNet),
    };
    match accept(script, net) {
        Ok(()) => Ok((script, net)),
        Err(_) => Err(Answer::BadNet),
    }
}

// The answer of the images as they stand: 1, 2, or done, where both have their form and the net is accepted.
pub fn image_answer(script: &[u8], net: &[u8]) -> Answer
    ensures { result ≡ image_answer script.now net.now }
{
    match images_in(script, net) {
        Ok(_) => Answer::Done,
        Err(answer) => answer,
    }
}

// ---- a request on good images

fn serve(script: &ScriptBytes, net: &mut NetBytes, r: Request) -> Told
    requires { GoodImages script.now net.old × (in_range (asked r) ≡ true) }
    ensures value { result ≡ told (served (script_in script.now) (net_in net.old) r) }
    ensures net_after { net.new ≡ lent_after (served (script_in script.now) (net_in net.old) r) net.old }
{
    match Code::of_byte(r.code) {
        Some(Code::Forward) => forward(script, net, r),
        Some(Code::Backward) => backward(script, net, r),
        Some(Code::Rollback) => rollback(script, net, r),
        Some(Code::Roll) => roll(script, net, r),
        None => refused(Answer::BadRequest),
    }
}

// ---- a call

// A call on images that are good: what a run of requests does for each.
pub fn call_on(script: &ScriptBytes, net: &mut NetBytes, request: &[u8]) -> Told
    requires { GoodImages script.now net.old }
    ensures { (result ≡ (reply script.now net.old request.now).told) × (net.new ≡ (reply script.now net.old request.now).net) }
{
    let Some(r) = read_request(request) else {
        return refused(Answer::BadRequest);
    };
    serve(script, net, r)
}

// Codes 0 to 3, by document 01's checks 1 to 12.
pub fn call(script: &[u8], net: &mut [u8], request: &[u8]) -> Told
    ensures { (result ≡ (reply script.now net.old request.now).told) × (net.new ≡ (reply script.now net.old request.now).net) }
{
    let script = match images_in(script, net) {
        Ok((script, _)) => script,
        Err(answer) => return refused(answer),
    };
    let Some(net) = net.as_mut_array() else {
        return refused(Answer::BadNet);
    };
    call_on(script, net, request)
}

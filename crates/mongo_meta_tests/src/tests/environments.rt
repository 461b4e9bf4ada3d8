use super::{Given, NOTHING, environment, sent};
use mongo_bson::{BsonFault, RawDocument};
use mongo_meta::{FaasEnvironmentName, RuntimeEnvironment};
use mongo_wire::Error;
use std::alloc::Global;
use std::test::Fail;

// Whether a client's document has this environment; an empty one stands for none.
fn has_environment(sent: RawDocument<'_>, wanted: &[u8]) -> Result<bool, BsonFault> {
    match sent.get_bytes("env")? {
        Some((kind, held)) => Ok(kind == 0x03 && held == wanted),
        None => Ok(wanted.is_empty()),
    }
}

// Whether a client in a row's environment shows this document.
fn shows(alloc: Global, row: &str, wanted: &[u8]) -> Result<bool, Error> {
    let sent = sent(alloc, &Given { row, ..NOTHING }, 0)?;
    Ok(has_environment(sent.borrow(), wanted)?)
}

const LAMBDA: &str =
    "AWS_EXECUTION_ENV=AWS_Lambda_java8;AWS_REGION=us-east-2;AWS_LAMBDA_FUNCTION_MEMORY_SIZE=1024";

const ON_LAMBDA: &[u8] =
    b"]\0\0\0\x02name\0\x0b\0\0\0aws.lambda\0\x02runtime\0\x11\0\0\0AWS_Lambda_java8\0\x10memory_mb\0\0\x04\0\0\x02region\0\x0a\0\0\0us-east-2\0\0";

const IN_CONTAINER: &[u8] =
    b"\x8a\0\0\0\x02name\0\x0b\0\0\0aws.lambda\0\x02runtime\0\x11\0\0\0AWS_Lambda_java8\0\x10memory_mb\0\0\x04\0\0\x02region\0\x0a\0\0\0us-east-2\0\x03container\0\x22\0\0\0\x02orchestrator\0\x0b\0\0\0kubernetes\0\0\0";

const GCP: &str =
    "K_SERVICE=servicename;FUNCTION_MEMORY_MB=1024;FUNCTION_TIMEOUT_SEC=60;FUNCTION_REGION=us-central1";

const ON_GCP: &[u8] =
    b"P\0\0\0\x02name\0\x09\0\0\0gcp.func\0\x10timeout_sec\0<\0\0\0\x10memory_mb\0\0\x04\0\0\x02region\0\x0c\0\0\0us-central1\0\0";

const ON_VERCEL: &[u8] = b"'\0\0\0\x02name\0\x07\0\0\0vercel\0\x02region\0\x05\0\0\0cdg1\0\0";

const ON_AZURE: &[u8] = b",\0\0\0\x02name\0\x0b\0\0\0azure.func\0\x02runtime\0\x05\0\0\0node\0\0";

const EMPTY_TEXTS: &[u8] =
    b"5\0\0\0\x02name\0\x0b\0\0\0aws.lambda\0\x02runtime\0\x01\0\0\0\0\x02region\0\x01\0\0\0\0\0";

const IN_DOCKER: &[u8] = b")\0\0\0\x03container\0\x19\0\0\0\x02runtime\0\x07\0\0\0docker\0\0\0";

const IN_BOTH: &[u8] =
    b"F\0\0\0\x03container\06\0\0\0\x02runtime\0\x07\0\0\0docker\0\x02orchestrator\0\x0b\0\0\0kubernetes\0\0\0";

// The environments of the handshake specification's tests and more, and the documents that they show.
fn row_at(place: u32) -> (&'static str, &'static [u8]) {
    match place {
        0 => (LAMBDA, ON_LAMBDA),
        1 => (GCP, ON_GCP),
        2 => ("VERCEL=1;VERCEL_REGION=cdg1", ON_VERCEL),
        3 => ("FUNCTIONS_WORKER_RUNTIME=node", ON_AZURE),
        4 => (
            "AWS_LAMBDA_RUNTIME_API=127.0.0.1:9001;AWS_EXECUTION_ENV=;AWS_REGION=;AWS_LAMBDA_FUNCTION_MEMORY_SIZE=big",
            EMPTY_TEXTS,
        ),
        5 => (
            "AWS_EXECUTION_ENV=AWS_Lambda_java8;AWS_REGION=us-east-2;AWS_LAMBDA_FUNCTION_MEMORY_SIZE=1024;KUBERNETES_SERVICE_HOST=1",
            IN_CONTAINER,
        ),
        6 => ("docker", IN_DOCKER),
        7 => ("docker;KUBERNETES_SERVICE_HOST=1", IN_BOTH),
        _ => ("KUBERNETES_SERVICE_HOST=", b""),
    }
}

#[test]
fn a_provider_s_variables_are_taken(rt: HostRuntime) {
    for place in 0..9 {
        let (row, document) = row_at(place);
        assert!(rt;
            matches!(shows(rt.alloc(), row, document), Ok(true)),
            "{row}"
        );
    }
}

fn provider_of(alloc: Global, row: &str) -> Result<Option<FaasEnvironmentName>, BsonFault> {
    let environment = environment(alloc, row)?;
    Ok(FaasEnvironmentName::from_environment(&environment))
}

// Whether an environment has the provider of a row.
fn has_provider(alloc: Global, row: &str) -> Result<bool, Fail> {
    let (variables, wanted) = row.split_once(" => ").unwrap_or((row, "no arrow"));
    let name = provider_of(alloc, variables)?;
    Ok(format!(in alloc; "{name:?}")?.as_str() == wanted)
}

const PROVIDERS: &str = "AWS_EXECUTION_ENV=AWS_Lambda_java8 => Some(AwsLambda)
AWS_EXECUTION_ENV=AWS_Lambda_ => Some(AwsLambda)
AWS_EXECUTION_ENV=AWS_Lambda => None
AWS_EXECUTION_ENV=EC2 => None
AWS_LAMBDA_RUNTIME_API=127.0.0.1:9001 => Some(AwsLambda)
AWS_LAMBDA_RUNTIME_API= => None
VERCEL=1 => Some(Vercel)
VERCEL= => None
FUNCTIONS_WORKER_RUNTIME=node => Some(AzureFunc)
FUNCTIONS_WORKER_RUNTIME= => None
K_SERVICE=servicename => Some(GcpFunc)
K_SERVICE= => None
FUNCTION_NAME=name => Some(GcpFunc)
AWS_REGION=us-east-2 => None
AWS_EXECUTION_ENV=AWS_Lambda_java8;VERCEL=1 => Some(Vercel)
VERCEL=1;AWS_EXECUTION_ENV=AWS_Lambda_java8 => Some(Vercel)
AWS_EXECUTION_ENV=AWS_Lambda_java8;FUNCTIONS_WORKER_RUNTIME=node => None
AWS_EXECUTION_ENV=AWS_Lambda_java8;K_SERVICE=servicename => None
VERCEL=1;FUNCTIONS_WORKER_RUNTIME=node => None
VERCEL=1;K_SERVICE=servicename => None
FUNCTIONS_WORKER_RUNTIME=node;K_SERVICE=servicename => None
AWS_EXECUTION_ENV=AWS_Lambda_java8;VERCEL=1;FUNCTIONS_WORKER_RUNTIME=node => None
AWS_EXECUTION_ENV=AWS_Lambda_java8;VERCEL=1;K_SERVICE=servicename => None
UNUSED=1;UNUSED=1 => None
VERCEL=;VERCEL=1 => None
VERCEL=1;VERCEL= => Some(Vercel)";

/// What is taken from an environment.
#[derive(Drop)]
struct Taken {
    of: Option<RuntimeEnvironment>,
}

fn taken_again(alloc: Global, taken: &Taken) -> Result<Option<RuntimeEnvironment>, BsonFault> {
    match &taken.of {
        Some(taken) => Ok(Some(taken.try_clone(alloc)?)),
        None => Ok(None),
    }
}

// A copy of what is taken from a row.
fn take_from(alloc: Global, row: &str) -> Result<Taken, Error> {
    let environment = environment(alloc, row)?;
    let of = RuntimeEnvironment::from_environment(alloc, &environment)?;
    let of = taken_again(alloc, &Taken { of })?;
    Ok(Taken { of })
}

fn memory_mb(taken: &Taken) -> Option<i32> {
    match &taken.of {
        Some(taken) => taken.memory_mb,
        None => None,
    }
}

fn memory_in(alloc: Global, row: &str) -> Result<Option<i32>, Error> {
    let taken = take_from(alloc, row)?;
    Ok(memory_mb(&taken))
}

// The memory of an environment, of which this is the text.
fn memory_of(alloc: Global, text: &str) -> Result<Option<i32>, Fail> {
    let row = format!(in alloc; "K_SERVICE=servicename;FUNCTION_MEMORY_MB={text}")?;
    Ok(memory_in(alloc, row.as_str())?)
}

// A number is an int32 in decimal.
const NUMBERS: &str = "0 => Some(0)
1024 => Some(1024)
007 => Some(7)
+5 => Some(5)
-5 => Some(-5)
2147483647 => Some(2147483647)
2147483648 => None
-2147483648 => Some(-2147483648)
-2147483649 => None
99999999999999999999 => None
 => None
+ => None
- => None
+-5 => None
big => None
1.5 => None
1  => None
0x10 => None
１ => None";

// Whether the text of a row is the number behind the arrow.
fn is_number(alloc: Global, row: &str) -> Result<bool, Fail> {
    let (text, wanted) = row.split_once(" => ").unwrap_or((row, "no arrow"));
    let number = memory_of(alloc, text)?;
    Ok(format!(in alloc; "{number:?}")?.as_str() == wanted)
}

#[test]
fn providers_and_numbers_are_read(rt: HostRuntime) -> Result<(), Fail> {
    for row in PROVIDERS.lines() {
        assert!(rt; has_provider(rt.alloc(), row)?, "{row}");
    }
    for row in NUMBERS.lines() {
        assert!(rt; is_number(rt.alloc(), row)?, "{row}");
    }
    Ok(())
}

//! The grammar of `rules/draft.cddl`.
pub const DRAFT: &str = r#"
; The grammar of WebDriver BiDi, written from memory after the draft.
;
; A rule marked `;+` is sure: remembered, or confirmed by Firefox's Remote Agent, the W3C's tests or a recorded log. A rule marked `;?` is
; unsure, and says why. The rules of the profile's modules follow the draft here, which allows more than the profile.
;
; A remote end reads a Command, and a local end reads a Message. The modules bluetooth, userAgentClientHints and speculation are left out.

; ---- base

;+
js-int = -9007199254740991..9007199254740991
;+
js-uint = 0..9007199254740991
;+
Extensible = (*text => any)
;+
EmptyParams = { Extensible }
;+
EmptyResult = { Extensible }

; ---- messages

;+
Command = {
  id: js-uint,
  CommandData,
  Extensible
}
;+
CommandData = (
  BrowserCommand //
  BrowsingContextCommand //
  EmulationCommand //
  InputCommand //
  NetworkCommand //
  PermissionsCommand //
  ScriptCommand //
  SessionCommand //
  StorageCommand //
  WebExtensionCommand
)
;+
Message = CommandResponse / ErrorResponse / Event
;+
CommandResponse = {
  type: "success",
  id: js-uint,
  result: ResultData,
  Extensible
}
;+ every result is an open map, so EmptyResult takes each; `RESULT OF method` is asked by name
ResultData = EmptyResult
;+
ErrorResponse = {
  type: "error",
  id: js-uint / null,
  error: ErrorCode,
  message: text,
  ? stacktrace: text,
  Extensible
}
;? the list grows with each module
ErrorCode = "invalid argument" / "invalid selector" / "invalid session id" / "invalid web extension" / "move target out of bounds" /
  "no such alert" / "no such network collector" / "no such element" / "no such frame" / "no such handle" / "no such history entry" /
  "no such intercept" / "no such network data" / "no such node" / "no such request" / "no such script" / "no such storage partition" /
  "no such user context" / "no such client window" / "no such web extension" / "session not created" / "unable to capture screen" /
  "unable to close browser" / "unable to set cookie" / "unable to set file input" / "unavailable network data" /
  "underspecified storage partition" / "unknown command" / "unknown error" / "unsupported operation"
;+
Event = {
  type: "event",
  EventData,
  Extensible
}
;+
EventData = (
  BrowsingContextEvent //
  InputEvent //
  LogEvent //
  NetworkEvent //
  ScriptEvent
)

; ---- session

;+
SessionCommand = (
  session.End //
  session.New //
  session.Status //
  session.Subscribe //
  session.Unsubscribe
)
;+
session.Status = ( method: "session.status", params: EmptyParams )
;+
session.New = ( method: "session.new", params: session.NewParameters )
;+
session.End = ( method: "session.end", params: EmptyParams )
;+
session.Subscribe = ( method: "session.subscribe", params: session.SubscribeParameters )
;+
session.Unsubscribe = ( method: "session.unsubscribe", params: session.UnsubscribeParameters )
;+
session.NewParameters = {
  capabilities: session.CapabilitiesRequest,
  Extensible
}
;+
session.CapabilitiesRequest = {
  ? alwaysMatch: session.CapabilityRequest,
  ? firstMatch: [*session.CapabilityRequest]
}
;+
session.CapabilityRequest = {
  ? acceptInsecureCerts: bool,
  ? browserName: text,
  ? browserVersion: text,
  ? platformName: text,
  ? proxy: session.ProxyConfiguration,
  ? unhandledPromptBehavior: session.UserPromptHandler,
  Extensible
}
;+
session.ProxyConfiguration = {
  session.AutodetectProxyConfiguration //
  session.DirectProxyConfiguration //
  session.ManualProxyConfiguration //
  session.PacProxyConfiguration //
  session.SystemProxyConfiguration
}
;+
session.AutodetectProxyConfiguration = ( proxyType: "autodetect", Extensible )
;+
session.DirectProxyConfiguration = ( proxyType: "direct", Extensible )
;+ the order of ftpProxy is not remembered; it was dropped and is not listed
session.ManualProxyConfiguration = (
  proxyType: "manual",
  ? httpProxy: text,
  ? sslProxy: text,
  ? session.SocksProxyConfiguration,
  ? noProxy: [*text],
  Extensible
)
;+ an optional group inside a group: both of its members or neither
session.SocksProxyConfiguration = ( socksProxy: text, socksVersion: 0..255 )
;+
session.PacProxyConfiguration = ( proxyType: "pac", proxyAutoconfigUrl: text, Extensible )
;+
session.SystemProxyConfiguration = ( proxyType: "system", Extensible )
;+
session.UserPromptHandler = {
  ? alert: session.UserPromptHandlerType,
  ? beforeUnload: session.UserPromptHandlerType,
  ? confirm: session.UserPromptHandlerType,
  ? default: session.UserPromptHandlerType,
  ? file: session.UserPromptHandlerType,
  ? prompt: session.UserPromptHandlerType
}
;+
session.UserPromptHandlerType = "accept" / "dismiss" / "ignore"
;+
session.Subscription = text
;+
session.SubscribeParameters = {
  events: [+text],
  ? contexts: [+browsingContext.BrowsingContext],
  ? userContexts: [+browser.UserContext],
  Extensible
}
;+
session.UnsubscribeParameters = session.UnsubscribeByAttributesRequest / session.UnsubscribeByIDRequest
;? whether `contexts` is still there
session.UnsubscribeByAttributesRequest = { events: [+text], ? contexts: [+browsingContext.BrowsingContext], Extensible }
;+
session.UnsubscribeByIDRequest = { subscriptions: [+session.Subscription], Extensible }
;+
session.StatusResult = { ready: bool, message: text, Extensible }
;+
session.NewResult = {
  sessionId: text,
  capabilities: {
    acceptInsecureCerts: bool,
    browserName: text,
    browserVersion: text,
    platformName: text,
    setWindowRect: bool,
    userAgent: text,
    ? proxy: session.ProxyConfiguration,
    ? unhandledPromptBehavior: session.UserPromptHandler,
    ? webSocketUrl: text,
    Extensible
  },
  Extensible
}
;+
session.SubscribeResult = { subscription: session.Subscription, Extensible }

; ---- browser

;+
BrowserCommand = (
  browser.Close //
  browser.CreateUserContext //
  browser.GetClientWindows //
  browser.GetUserContexts //
  browser.RemoveUserContext //
  browser.SetClientWindowState //
  browser.SetDownloadBehavior
)
;+
browser.ClientWindow = text
;+
browser.UserContext = text
;+
browser.UserContextInfo = { userContext: browser.UserContext, Extensible }
;+
browser.ClientWindowInfo = {
  active: bool,
  clientWindow: browser.ClientWindow,
  height: js-uint,
  state: "fullscreen" / "maximized" / "minimized" / "normal",
  width: js-uint,
  x: js-int,
  y: js-int,
  Extensible
}
;+
browser.Close = ( method: "browser.close", params: EmptyParams )
;+
browser.CreateUserContext = ( method: "browser.createUserContext", params: browser.CreateUserContextParameters )
;+
browser.CreateUserContextParameters = {
  ? acceptInsecureCerts: bool,
  ? proxy: session.ProxyConfiguration,
  ? unhandledPromptBehavior: session.UserPromptHandler,
  Extensible
}
;+
browser.GetClientWindows = ( method: "browser.getClientWindows", params: EmptyParams )
;+
browser.GetClientWindowsResult = { clientWindows: [*browser.ClientWindowInfo], Extensible }
;+
browser.GetUserContexts = ( method: "browser.getUserContexts", params: EmptyParams )
;+
browser.GetUserContextsResult = { userContexts: [+browser.UserContextInfo], Extensible }
;+
browser.RemoveUserContext = ( method: "browser.removeUserContext", params: browser.RemoveUserContextParameters )
;+
browser.RemoveUserContextParameters = { userContext: browser.UserContext, Extensible }
;+
browser.SetClientWindowState = ( method: "browser.setClientWindowState", params: browser.SetClientWindowStateParameters )
;+ a choice of groups inside a map
browser.SetClientWindowStateParameters = {
  clientWindow: browser.ClientWindow,
  (browser.ClientWindowNamedState // browser.ClientWindowRectState),
  Extensible
}
;+
browser.ClientWindowNamedState = ( state: "fullscreen" / "maximized" / "minimized" )
;+
browser.ClientWindowRectState = ( state: "normal", ? width: js-uint, ? height: js-uint, ? x: js-int, ? y: js-int )
;? new in 2025
browser.SetDownloadBehavior = ( method: "browser.setDownloadBehavior", params: browser.SetDownloadBehaviorParameters )
;? new in 2025
browser.SetDownloadBehaviorParameters = {
  downloadBehavior: browser.DownloadBehavior / null,
  ? userContexts: [+browser.UserContext],
  Extensible
}
;? new in 2025
browser.DownloadBehavior = { (browser.DownloadBehaviorAllowed // browser.DownloadBehaviorDenied) }
;? new in 2025
browser.DownloadBehaviorAllowed = ( type: "allowed", destinationFolder: text )
;? new in 2025
browser.DownloadBehaviorDenied = ( type: "denied" )

; ---- browsingContext

;+
BrowsingContextCommand = (
  browsingContext.Activate //
  browsingContext.CaptureScreenshot //
  browsingContext.Close //
  browsingContext.Create //
  browsingContext.GetTree //
  browsingContext.HandleUserPrompt //
  browsingContext.LocateNodes //
  browsingContext.Navigate //
  browsingContext.Print //
  browsingContext.Reload //
  browsingContext.SetViewport //
  browsingContext.TraverseHistory
)
;+
BrowsingContextEvent = (
  browsingContext.ContextCreated //
  browsingContext.ContextDestroyed //
  browsingContext.DomContentLoaded //
  browsingContext.DownloadEnd //
  browsingContext.DownloadWillBegin //
  browsingContext.FragmentNavigated //
  browsingContext.HistoryUpdated //
  browsingContext.Load //
  browsingContext.NavigationAborted //
  browsingContext.NavigationCommitted //
  browsingContext.NavigationFailed //
  browsingContext.NavigationStarted //
  browsingContext.UserPromptClosed //
  browsingContext.UserPromptOpened
)
;+
browsingContext.BrowsingContext = text
;+
browsingContext.Navigation = text
;+
browsingContext.InfoList = [*browsingContext.Info]
;+ originalOpener and clientWindow came late
browsingContext.Info = {
  children: browsingContext.InfoList / null,
  clientWindow: browser.ClientWindow,
  context: browsingContext.BrowsingContext,
  originalOpener: browsingContext.BrowsingContext / null,
  url: text,
  userContext: browser.UserContext,
  ? parent: browsingContext.BrowsingContext / null,
  Extensible
}
;+
browsingContext.Locator = browsingContext.AccessibilityLocator / browsingContext.CssLocator / browsingContext.ContextLocator /
  browsingContext.InnerTextLocator / browsingContext.XPathLocator
;+
browsingContext.AccessibilityLocator = { type: "accessibility", value: { ? name: text, ? role: text, Extensible }, Extensible }
;+
browsingContext.CssLocator = { type: "css", value: text, Extensible }
;+
browsingContext.ContextLocator = { type: "context", value: { context: browsingContext.BrowsingContext, Extensible }, Extensible }
;+
browsingContext.InnerTextLocator = {
  type: "innerText",
  value: text,
  ? ignoreCase: bool,
  ? matchType: "full" / "partial",
  ? maxDepth: js-uint,
  Extensible
}
;+
browsingContext.XPathLocator = { type: "xpath", value: text, Extensible }
;+
browsingContext.BaseNavigationInfo = (
  context: browsingContext.BrowsingContext,
  navigation: browsingContext.Navigation / null,
  timestamp: js-uint,
  url: text,
  ? userContext: browser.UserContext
)
;+ open here, so that a log of a newer browser fits
browsingContext.NavigationInfo = { browsingContext.BaseNavigationInfo, Extensible }
;+
browsingContext.ReadinessState = "none" / "interactive" / "complete"
;+
browsingContext.UserPromptType = "alert" / "beforeunload" / "confirm" / "prompt"
;+
browsingContext.Activate = ( method: "browsingContext.activate", params: { context: browsingContext.BrowsingContext, Extensible } )
;+
browsingContext.CaptureScreenshot = ( method: "browsingContext.captureScreenshot", params: browsingContext.CaptureScreenshotParameters )
;+
browsingContext.CaptureScreenshotParameters = {
  context: browsingContext.BrowsingContext,
  ? origin: ("viewport" / "document") .default "viewport",
  ? format: browsingContext.ImageFormat,
  ? clip: browsingContext.ClipRectangle,
  Extensible
}
;+
browsingContext.ImageFormat = { type: text, ? quality: 0.0..1.0, Extensible }
;+
browsingContext.ClipRectangle = browsingContext.BoxClipRectangle / browsingContext.ElementClipRectangle
;+
browsingContext.BoxClipRectangle = { type: "box", x: float, y: float, width: float, height: float, Extensible }
;+
browsingContext.ElementClipRectangle = { type: "element", element: script.SharedReference, Extensible }
;+
browsingContext.CaptureScreenshotResult = { data: text, Extensible }
;+
browsingContext.Close = ( method: "browsingContext.close", params: browsingContext.CloseParameters )
;+
browsingContext.CloseParameters = { context: browsingContext.BrowsingContext, ? promptUnload: bool .default false, Extensible }
;+
browsingContext.Create = ( method: "browsingContext.create", params: browsingContext.CreateParameters )
;+
browsingContext.CreateType = "tab" / "window"
;+
browsingContext.CreateParameters = {
  type: browsingContext.CreateType,
  ? referenceContext: browsingContext.BrowsingContext,
  ? background: bool .default false,
  ? userContext: browser.UserContext,
  Extensible
}
;? userContext in the result is new
browsingContext.CreateResult = { context: browsingContext.BrowsingContext, ? userContext: browser.UserContext, Extensible }
;+
browsingContext.GetTree = ( method: "browsingContext.getTree", params: browsingContext.GetTreeParameters )
;+
browsingContext.GetTreeParameters = { ? maxDepth: js-uint, ? root: browsingContext.BrowsingContext, Extensible }
;+
browsingContext.GetTreeResult = { contexts: browsingContext.InfoList, Extensible }
;+
browsingContext.HandleUserPrompt = ( method: "browsingContext.handleUserPrompt", params: browsingContext.HandleUserPromptParameters )
;+
browsingContext.HandleUserPromptParameters = { context: browsingContext.BrowsingContext, ? accept: bool, ? userText: text, Extensible }
;+
browsingContext.LocateNodes = ( method: "browsingContext.locateNodes", params: browsingContext.LocateNodesParameters )
;+
browsingContext.LocateNodesParameters = {
  context: browsingContext.BrowsingContext,
  locator: browsingContext.Locator,
  ? maxNodeCount: 1..9007199254740991,
  ? serializationOptions: script.SerializationOptions,
  ? startNodes: [+script.SharedReference],
  Extensible
}
;+
browsingContext.LocateNodesResult = { nodes: [*script.NodeRemoteValue], Extensible }
;+
browsingContext.Navigate = ( method: "browsingContext.navigate", params: browsingContext.NavigateParameters )
;+
browsingContext.NavigateParameters = {
  context: browsingContext.BrowsingContext,
  url: text,
  ? wait: browsingContext.ReadinessState,
  Extensible
}
;+
browsingContext.NavigateResult = { navigation: browsingContext.Navigation / null, url: text, Extensible }
;+
browsingContext.Print = ( method: "browsingContext.print", params: browsingContext.PrintParameters )
;+ bounds of numbers with a fraction
browsingContext.PrintParameters = {
  context: browsingContext.BrowsingContext,
  ? background: bool .default false,
  ? margin: browsingContext.PrintMarginParameters,
  ? orientation: ("portrait" / "landscape") .default "portrait",
  ? page: browsingContext.PrintPageParameters,
  ? pageRanges: [*(js-uint / text)],
  ? scale: (0.1..2.0) .default 1.0,
  ? shrinkToFit: bool .default true,
  Extensible
}
;+
browsingContext.PrintMarginParameters = {
  ? bottom: (float .ge 0.0) .default 1.0,
  ? left: (float .ge 0.0) .default 1.0,
  ? right: (float .ge 0.0) .default 1.0,
  ? top: (float .ge 0.0) .default 1.0,
  Extensible
}
;+ the least size is one point, 2.54 / 72 cm
browsingContext.PrintPageParameters = {
  ? height: (float .ge 0.0352) .default 27.94,
  ? width: (float .ge 0.0352) .default 21.59,
  Extensible
}
;+
browsingContext.PrintResult = { data: text, Extensible }
;+
browsingContext.Reload = ( method: "browsingContext.reload", params: browsingContext.ReloadParameters )
;+
browsingContext.ReloadParameters = {
  context: browsingContext.BrowsingContext,
  ? ignoreCache: bool,
  ? wait: browsingContext.ReadinessState,
  Extensible
}
;+
browsingContext.SetViewport = ( method: "browsingContext.setViewport", params: browsingContext.SetViewportParameters )
;+
browsingContext.SetViewportParameters = {
  ? context: browsingContext.BrowsingContext,
  ? viewport: browsingContext.Viewport / null,
  ? devicePixelRatio: (float .gt 0.0) / null,
  ? userContexts: [+browser.UserContext],
  Extensible
}
;+
browsingContext.Viewport = { width: js-uint, height: js-uint, Extensible }
;+
browsingContext.TraverseHistory = ( method: "browsingContext.traverseHistory", params: browsingContext.TraverseHistoryParameters )
;+
browsingContext.TraverseHistoryParameters = { context: browsingContext.BrowsingContext, delta: js-int, Extensible }
;+
browsingContext.ContextCreated = ( method: "browsingContext.contextCreated", params: browsingContext.Info )
;+
browsingContext.ContextDestroyed = ( method: "browsingContext.contextDestroyed", params: browsingContext.Info )
;+
browsingContext.NavigationStarted = ( method: "browsingContext.navigationStarted", params: browsingContext.NavigationInfo )
;+
browsingContext.FragmentNavigated = ( method: "browsingContext.fragmentNavigated", params: browsingContext.NavigationInfo )
;+
browsingContext.HistoryUpdated = ( method: "browsingContext.historyUpdated", params: browsingContext.HistoryUpdatedParameters )
;? timestamp and userContext came late
browsingContext.HistoryUpdatedParameters = {
  context: browsingContext.BrowsingContext,
  ? timestamp: js-uint,
  url: text,
  ? userContext: browser.UserContext,
  Extensible
}
;+
browsingContext.DomContentLoaded = ( method: "browsingContext.domContentLoaded", params: browsingContext.NavigationInfo )
;+
browsingContext.Load = ( method: "browsingContext.load", params: browsingContext.NavigationInfo )
;+
browsingContext.DownloadWillBegin = ( method: "browsingContext.downloadWillBegin", params: browsingContext.DownloadWillBeginParams )
;+
browsingContext.DownloadWillBeginParams = { suggestedFilename: text, browsingContext.BaseNavigationInfo, Extensible }
;? new in 2025
browsingContext.DownloadEnd = ( method: "browsingContext.downloadEnd", params: browsingContext.DownloadEndParams )
;? new in 2025
browsingContext.DownloadEndParams = { (browsingContext.DownloadCanceledParams // browsingContext.DownloadCompleteParams), Extensible }
;? new in 2025
browsingContext.DownloadCanceledParams = ( status: "canceled", browsingContext.BaseNavigationInfo )
;? new in 2025
browsingContext.DownloadCompleteParams = ( status: "complete", filepath: text / null, browsingContext.BaseNavigationInfo )
;+
browsingContext.NavigationAborted = ( method: "browsingContext.navigationAborted", params: browsingContext.NavigationInfo )
;+
browsingContext.NavigationCommitted = ( method: "browsingContext.navigationCommitted", params: browsingContext.NavigationInfo )
;+
browsingContext.NavigationFailed = ( method: "browsingContext.navigationFailed", params: browsingContext.NavigationInfo )
;+
browsingContext.UserPromptClosed = ( method: "browsingContext.userPromptClosed", params: browsingContext.UserPromptClosedParameters )
;+
browsingContext.UserPromptClosedParameters = {
  context: browsingContext.BrowsingContext,
  accepted: bool,
  type: browsingContext.UserPromptType,
  ? userText: text,
  ? userContext: browser.UserContext,
  Extensible
}
;+
browsingContext.UserPromptOpened = ( method: "browsingContext.userPromptOpened", params: browsingContext.UserPromptOpenedParameters )
;+
browsingContext.UserPromptOpenedParameters = {
  context: browsingContext.BrowsingContext,
  handler: session.UserPromptHandlerType,
  message: text,
  type: browsingContext.UserPromptType,
  ? defaultValue: text,
  ? userContext: browser.UserContext,
  Extensible
}

; ---- emulation

;+
EmulationCommand = (
  emulation.SetForcedColorsModeThemeOverride //
  emulation.SetGeolocationOverride //
  emulation.SetLocaleOverride //
  emulation.SetNetworkConditions //
  emulation.SetScreenOrientationOverride //
  emulation.SetScriptingEnabled //
  emulation.SetTimezoneOverride //
  emulation.SetUserAgentOverride
)
;+
emulation.Where = (
  ? contexts: [+browsingContext.BrowsingContext],
  ? userContexts: [+browser.UserContext],
  Extensible
)
;+
emulation.SetGeolocationOverride = ( method: "emulation.setGeolocationOverride", params: emulation.SetGeolocationOverrideParameters )
;+
emulation.SetGeolocationOverrideParameters = {
  (
    (coordinates: emulation.GeolocationCoordinates / null) //
    (error: emulation.GeolocationPositionError)
  ),
  emulation.Where
}
;+ `0.0...360.0` leaves out its end
emulation.GeolocationCoordinates = {
  latitude: -90.0..90.0,
  longitude: -180.0..180.0,
  ? accuracy: (float .ge 0.0) .default 1.0,
  ? altitude: float / null .default null,
  ? altitudeAccuracy: (float .ge 0.0) / null .default null,
  ? heading: (0.0...360.0) / null .default null,
  ? speed: (float .ge 0.0) / null .default null,
  Extensible
}
;+
emulation.GeolocationPositionError = { type: "positionUnavailable", Extensible }
;+
emulation.SetLocaleOverride = ( method: "emulation.setLocaleOverride", params: { locale: text / null, emulation.Where } )
;+
emulation.SetScreenOrientationOverride =
  ( method: "emulation.setScreenOrientationOverride", params: { screenOrientation: emulation.ScreenOrientation / null, emulation.Where } )
;+
emulation.ScreenOrientation = {
  natural: "portrait" / "landscape",
  type: "portrait-primary" / "portrait-secondary" / "landscape-primary" / "landscape-secondary",
  Extensible
}
;+
emulation.SetTimezoneOverride = ( method: "emulation.setTimezoneOverride", params: { timezone: text / null, emulation.Where } )
;? new in 2025
emulation.SetUserAgentOverride = ( method: "emulation.setUserAgentOverride", params: { userAgent: text / null, emulation.Where } )
;? new in 2025
emulation.SetScriptingEnabled = ( method: "emulation.setScriptingEnabled", params: { enabled: false / null, emulation.Where } )
;? new in 2025
emulation.SetForcedColorsModeThemeOverride =
  ( method: "emulation.setForcedColorsModeThemeOverride", params: { theme: "light" / "dark" / null, emulation.Where } )
;? new in 2025
emulation.SetNetworkConditions = ( method: "emulation.setNetworkConditions", params: { networkConditions: { type: "offline" } / null, emulation.Where } )

; ---- input

;+
InputCommand = ( input.PerformActions // input.ReleaseActions // input.SetFiles )
;+
InputEvent = ( input.FileDialogOpened )
;+
input.ElementOrigin = { type: "element", element: script.SharedReference, Extensible }
;+
input.PerformActions = ( method: "input.performActions", params: input.PerformActionsParameters )
;+
input.PerformActionsParameters = { context: browsingContext.BrowsingContext, actions: [*input.SourceActions], Extensible }
;+
input.SourceActions = input.NoneSourceActions / input.KeySourceActions / input.PointerSourceActions / input.WheelSourceActions
;+
input.NoneSourceActions = { type: "none", id: text, actions: [*input.PauseAction], Extensible }
;+
input.KeySourceActions = { type: "key", id: text, actions: [*input.KeySourceAction], Extensible }
;+
input.KeySourceAction = input.PauseAction / input.KeyDownAction / input.KeyUpAction
;+
input.PointerSourceActions = {
  type: "pointer",
  id: text,
  ? parameters: input.PointerParameters,
  actions: [*input.PointerSourceAction],
  Extensible
}
;+
input.PointerParameters = { ? pointerType: ("mouse" / "pen" / "touch") .default "mouse", Extensible }
;+
input.PointerSourceAction = input.PauseAction / input.PointerDownAction / input.PointerUpAction / input.PointerMoveAction
;+
input.WheelSourceActions = { type: "wheel", id: text, actions: [*input.WheelSourceAction], Extensible }
;+
input.WheelSourceAction = input.PauseAction / input.WheelScrollAction
;+
input.PauseAction = { type: "pause", ? duration: js-uint, Extensible }
;+
input.KeyDownAction = { type: "keyDown", value: text, Extensible }
;+
input.KeyUpAction = { type: "keyUp", value: text, Extensible }
;+
input.PointerUpAction = { type: "pointerUp", button: js-uint, Extensible }
;+
input.PointerDownAction = { type: "pointerDown", button: js-uint, input.PointerCommonProperties, Extensible }
;+ x and y were js-int before 2024
input.PointerMoveAction = {
  type: "pointerMove",
  x: float,
  y: float,
  ? duration: js-uint,
  ? origin: input.Origin,
  input.PointerCommonProperties,
  Extensible
}
;+
input.WheelScrollAction = {
  type: "scroll",
  x: js-int,
  y: js-int,
  deltaX: js-int,
  deltaY: js-int,
  ? duration: js-uint,
  ? origin: input.Origin .default "viewport",
  Extensible
}
;+ pi / 2 and 2 pi with 17 digits: bounds that no decimal of few digits states
input.PointerCommonProperties = (
  ? width: js-uint .default 1,
  ? height: js-uint .default 1,
  ? pressure: (0.0..1.0) .default 0.0,
  ? tangentialPressure: (-1.0..1.0) .default 0.0,
  ? twist: (0..359) .default 0,
  ? altitudeAngle: (0.0..1.5707963267948966) .default 0.0,
  ? azimuthAngle: (0.0..6.283185307179586) .default 0.0
)
;+
input.Origin = "viewport" / "pointer" / input.ElementOrigin
;+
input.ReleaseActions = ( method: "input.releaseActions", params: { context: browsingContext.BrowsingContext, Extensible } )
;+
input.SetFiles = ( method: "input.setFiles", params: input.SetFilesParameters )
;+
input.SetFilesParameters = { context: browsingContext.BrowsingContext, element: script.SharedReference, files: [*text], Extensible }
;+
input.FileDialogOpened = ( method: "input.fileDialogOpened", params: input.FileDialogInfo )
;+
input.FileDialogInfo = {
  context: browsingContext.BrowsingContext,
  ? element: script.SharedReference,
  multiple: bool,
  ? userContext: browser.UserContext,
  Extensible
}

; ---- log

;+
LogEvent = ( log.EntryAdded )
;+
log.EntryAdded = ( method: "log.entryAdded", params: log.Entry )
;+
log.Level = "debug" / "info" / "warn" / "error"
;+ a choice that overlaps: GenericLogEntry takes the others' entries too where it is open
log.Entry = log.ConsoleLogEntry / log.JavascriptLogEntry / log.GenericLogEntry
;+
log.BaseLogEntry = (
  level: log.Level,
  source: script.Source,
  text: text / null,
  timestamp: js-uint,
  ? stackTrace: script.StackTrace
)
;+
log.GenericLogEntry = { log.BaseLogEntry, type: text, Extensible }
;+
log.ConsoleLogEntry = { log.BaseLogEntry, type: "console", method: text, args: [*script.RemoteValue], Extensible }
;+
log.JavascriptLogEntry = { log.BaseLogEntry, type: "javascript", Extensible }

; ---- network

;+
NetworkCommand = (
  network.AddDataCollector //
  network.AddIntercept //
  network.ContinueRequest //
  network.ContinueResponse //
  network.ContinueWithAuth //
  network.DisownData //
  network.FailRequest //
  network.GetData //
  network.ProvideResponse //
  network.RemoveDataCollector //
  network.RemoveIntercept //
  network.SetCacheBehavior //
  network.SetExtraHeaders
)
;+
NetworkEvent = (
  network.AuthRequired //
  network.BeforeRequestSent //
  network.FetchError //
  network.ResponseCompleted //
  network.ResponseStarted
)
;+
network.AuthChallenge = { scheme: text, realm: text, Extensible }
;+
network.AuthCredentials = { type: "password", username: text, password: text, Extensible }
;+ a group that stands in four maps
network.BaseParameters = (
  context: browsingContext.BrowsingContext / null,
  isBlocked: bool,
  navigation: browsingContext.Navigation / null,
  redirectCount: js-uint,
  request: network.RequestData,
  timestamp: js-uint,
  ? intercepts: [+network.Intercept],
  ? userContext: browser.UserContext / null
)
;+
network.BytesValue = network.StringValue / network.Base64Value
;+
network.StringValue = { type: "string", value: text, Extensible }
;+
network.Base64Value = { type: "base64", value: text, Extensible }
;? new in 2025
network.Collector = text
;? new in 2025
network.DataType = "request" / "response"
;+
network.SameSite = "strict" / "lax" / "none" / "default"
;+
network.Cookie = {
  name: text,
  value: network.BytesValue,
  domain: text,
  path: text,
  size: js-uint,
  httpOnly: bool,
  secure: bool,
  sameSite: network.SameSite,
  ? expiry: js-uint,
  Extensible
}
;+
network.CookieHeader = { name: text, value: network.BytesValue, Extensible }
;+
network.FetchTimingInfo = {
  timeOrigin: float,
  requestTime: float,
  redirectStart: float,
  redirectEnd: float,
  fetchStart: float,
  dnsStart: float,
  dnsEnd: float,
  connectStart: float,
  connectEnd: float,
  tlsStart: float,
  requestStart: float,
  responseStart: float,
  responseEnd: float,
  Extensible
}
;+
network.Header = { name: text, value: network.BytesValue, Extensible }
;+
network.Initiator = {
  ? columnNumber: js-uint,
  ? lineNumber: js-uint,
  ? request: network.Request,
  ? stackTrace: script.StackTrace,
  ? type: "parser" / "script" / "preflight" / "other",
  Extensible
}
;+
network.Intercept = text
;+
network.Request = text
;+ destination and initiatorType came in 2025
network.RequestData = {
  request: network.Request,
  url: text,
  method: text,
  headers: [*network.Header],
  cookies: [*network.Cookie],
  headersSize: js-uint,
  bodySize: js-uint / null,
  ? destination: text,
  ? initiatorType: text / null,
  timings: network.FetchTimingInfo,
  Extensible
}
;+
network.ResponseContent = { size: js-uint, Extensible }
;+
network.ResponseData = {
  url: text,
  protocol: text,
  status: js-uint,
  statusText: text,
  fromCache: bool,
  headers: [*network.Header],
  mimeType: text,
  bytesReceived: js-uint,
  headersSize: js-uint / null,
  bodySize: js-uint / null,
  content: network.ResponseContent,
  ? authChallenges: [*network.AuthChallenge],
  Extensible
}
;+
network.SetCookieHeader = {
  name: text,
  value: network.BytesValue,
  ? domain: text,
  ? httpOnly: bool,
  ? expiry: text,
  ? maxAge: js-int,
  ? path: text,
  ? sameSite: network.SameSite,
  ? secure: bool,
  Extensible
}
;+
network.UrlPattern = network.UrlPatternPattern / network.UrlPatternString
;+
network.UrlPatternPattern = {
  type: "pattern",
  ? protocol: text,
  ? hostname: text,
  ? port: text,
  ? pathname: text,
  ? search: text,
  Extensible
}
;+
network.UrlPatternString = { type: "string", pattern: text, Extensible }
;? new in 2025
network.AddDataCollector = ( method: "network.addDataCollector", params: network.AddDataCollectorParameters )
;? new in 2025
network.AddDataCollectorParameters = {
  dataTypes: [+network.DataType],
  maxEncodedDataSize: js-uint,
  ? collectorType: "blob" .default "blob",
  ? contexts: [+browsingContext.BrowsingContext],
  ? userContexts: [+browser.UserContext],
  Extensible
}
;? new in 2025
network.AddDataCollectorResult = { collector: network.Collector, Extensible }
;+
network.AddIntercept = ( method: "network.addIntercept", params: network.AddInterceptParameters )
;+
network.AddInterceptParameters = {
  phases: [+network.InterceptPhase],
  ? contexts: [+browsingContext.BrowsingContext],
  ? urlPatterns: [*network.UrlPattern],
  Extensible
}
;+
network.InterceptPhase = "beforeRequestSent" / "responseStarted" / "authRequired"
;+
network.AddInterceptResult = { intercept: network.Intercept, Extensible }
;+
network.ContinueRequest = ( method: "network.continueRequest", params: network.ContinueRequestParameters )
;+
network.ContinueRequestParameters = {
  request: network.Request,
  ? body: network.BytesValue,
  ? cookies: [*network.CookieHeader],
  ? headers: [*network.Header],
  ? method: text,
  ? url: text,
  Extensible
}
;+
network.ContinueResponse = ( method: "network.continueResponse", params: network.ContinueResponseParameters )
;+
network.ContinueResponseParameters = {
  request: network.Request,
  ? cookies: [*network.SetCookieHeader],
  ? credentials: network.AuthCredentials,
  ? headers: [*network.Header],
  ? reasonPhrase: text,
  ? statusCode: js-uint,
  Extensible
}
;+
network.ContinueWithAuth = ( method: "network.continueWithAuth", params: network.ContinueWithAuthParameters )
;+ a choice of groups inside a map
network.ContinueWithAuthParameters = {
  request: network.Request,
  (network.ContinueWithAuthCredentials // network.ContinueWithAuthNoCredentials),
  Extensible
}
;+
network.ContinueWithAuthCredentials = ( action: "provideCredentials", credentials: network.AuthCredentials )
;+
network.ContinueWithAuthNoCredentials = ( action: "default" / "cancel" )
;? new in 2025
network.DisownData = ( method: "network.disownData", params: network.DisownDataParameters )
;? new in 2025
network.DisownDataParameters = { dataType: network.DataType, collector: network.Collector, request: network.Request, Extensible }
;+
network.FailRequest = ( method: "network.failRequest", params: { request: network.Request, Extensible } )
;? new in 2025
network.GetData = ( method: "network.getData", params: network.GetDataParameters )
;? new in 2025
network.GetDataParameters = {
  dataType: network.DataType,
  ? collector: network.Collector,
  ? disown: bool .default false,
  request: network.Request,
  Extensible
}
;? new in 2025
network.GetDataResult = { bytes: network.BytesValue, Extensible }
;+
network.ProvideResponse = ( method: "network.provideResponse", params: network.ProvideResponseParameters )
;+
network.ProvideResponseParameters = {
  request: network.Request,
  ? body: network.BytesValue,
  ? cookies: [*network.SetCookieHeader],
  ? headers: [*network.Header],
  ? reasonPhrase: text,
  ? statusCode: js-uint,
  Extensible
}
;? new in 2025
network.RemoveDataCollector = ( method: "network.removeDataCollector", params: { collector: network.Collector, Extensible } )
;+
network.RemoveIntercept = ( method: "network.removeIntercept", params: { intercept: network.Intercept, Extensible } )
;+
network.SetCacheBehavior = ( method: "network.setCacheBehavior", params: network.SetCacheBehaviorParameters )
;+
network.SetCacheBehaviorParameters = {
  cacheBehavior: "default" / "bypass",
  ? contexts: [+browsingContext.BrowsingContext],
  Extensible
}
;? new in 2025
network.SetExtraHeaders = ( method: "network.setExtraHeaders", params: network.SetExtraHeadersParameters )
;? new in 2025
network.SetExtraHeadersParameters = {
  headers: [*network.Header],
  ? contexts: [+browsingContext.BrowsingContext],
  ? userContexts: [+browser.UserContext],
  Extensible
}
;+
network.AuthRequired = ( method: "network.authRequired", params: { network.BaseParameters, response: network.ResponseData, Extensible } )
;+ initiator became optional in 2025
network.BeforeRequestSent =
  ( method: "network.beforeRequestSent", params: { network.BaseParameters, ? initiator: network.Initiator, Extensible } )
;+
network.FetchError = ( method: "network.fetchError", params: { network.BaseParameters, errorText: text, Extensible } )
;+
network.ResponseCompleted = ( method: "network.responseCompleted", params: { network.BaseParameters, response: network.ResponseData, Extensible } )
;+
network.ResponseStarted = ( method: "network.responseStarted", params: { network.BaseParameters, response: network.ResponseData, Extensible } )

; ---- permissions (an extension draft: W3C Permissions)

;+
PermissionsCommand = ( permissions.SetPermission )
;+
permissions.SetPermission = ( method: "permissions.setPermission", params: permissions.SetPermissionParameters )
;+ embeddedOrigin came in 2025
permissions.SetPermissionParameters = {
  descriptor: { name: text, Extensible },
  state: "granted" / "denied" / "prompt",
  origin: text,
  ? embeddedOrigin: text,
  ? userContext: text,
  Extensible
}

; ---- script

;+
ScriptCommand = (
  script.AddPreloadScript //
  script.CallFunction //
  script.Disown //
  script.Evaluate //
  script.GetRealms //
  script.RemovePreloadScript
)
;+
ScriptEvent = ( script.Message // script.RealmCreated // script.RealmDestroyed )
;+
script.Channel = text
;+
script.ChannelValue = { type: "channel", value: script.ChannelProperties, Extensible }
;+
script.ChannelProperties = {
  channel: script.Channel,
  ? serializationOptions: script.SerializationOptions,
  ? ownership: script.ResultOwnership,
  Extensible
}
;+
script.Target = script.ContextTarget / script.RealmTarget
;+
script.ContextTarget = { context: browsingContext.BrowsingContext, ? sandbox: text, Extensible }
;+
script.RealmTarget = { realm: script.Realm, Extensible }
;+
script.EvaluateResult = script.EvaluateResultSuccess / script.EvaluateResultException
;+
script.EvaluateResultSuccess = { type: "success", result: script.RemoteValue, realm: script.Realm, Extensible }
;+
script.EvaluateResultException = { type: "exception", exceptionDetails: script.ExceptionDetails, realm: script.Realm, Extensible }
;+
script.ExceptionDetails = {
  columnNumber: js-uint,
  exception: script.RemoteValue,
  lineNumber: js-uint,
  stackTrace: script.StackTrace,
  text: text,
  Extensible
}
;+
script.Handle = text
;+
script.InternalId = text
;+
script.LocalValue = script.RemoteReference / script.PrimitiveProtocolValue / script.ChannelValue / script.ArrayLocalValue /
  script.DateLocalValue / script.MapLocalValue / script.ObjectLocalValue / script.RegExpLocalValue / script.SetLocalValue
;+
script.ListLocalValue = [*script.LocalValue]
;+
script.ArrayLocalValue = { type: "array", value: script.ListLocalValue, Extensible }
;+
script.DateLocalValue = { type: "date", value: text, Extensible }
;+ a pair in a list
script.MappingLocalValue = [*[(script.LocalValue / text), script.LocalValue]]
;+
script.MapLocalValue = { type: "map", value: script.MappingLocalValue, Extensible }
;+
script.ObjectLocalValue = { type: "object", value: script.MappingLocalValue, Extensible }
;+
script.RegExpValue = { pattern: text, ? flags: text, Extensible }
;+
script.RegExpLocalValue = { type: "regexp", value: script.RegExpValue, Extensible }
;+
script.SetLocalValue = { type: "set", value: script.ListLocalValue, Extensible }
;+
script.PreloadScript = text
;+
script.Realm = text
;+
script.PrimitiveProtocolValue = script.UndefinedValue / script.NullValue / script.StringValue / script.NumberValue / script.BooleanValue /
  script.BigIntValue
;+
script.UndefinedValue = { type: "undefined", Extensible }
;+
script.NullValue = { type: "null", Extensible }
;+
script.StringValue = { type: "string", value: text, Extensible }
;+
script.SpecialNumber = "NaN" / "-0" / "Infinity" / "-Infinity"
;+
script.NumberValue = { type: "number", value: number / script.SpecialNumber, Extensible }
;+
script.BooleanValue = { type: "boolean", value: bool, Extensible }
;+
script.BigIntValue = { type: "bigint", value: text, Extensible }
;+
script.RealmInfo = script.WindowRealmInfo / script.DedicatedWorkerRealmInfo / script.OtherRealmInfo
;+
script.BaseRealmInfo = ( realm: script.Realm, origin: text )
;+
script.WindowRealmInfo = {
  script.BaseRealmInfo,
  type: "window",
  context: browsingContext.BrowsingContext,
  ? sandbox: text,
  ? userContext: browser.UserContext,
  Extensible
}
;+
script.DedicatedWorkerRealmInfo = { script.BaseRealmInfo, type: "dedicated-worker", owners: [script.Realm], Extensible }
;+ six rules of the draft in one
script.OtherRealmInfo = {
  script.BaseRealmInfo,
  type: "shared-worker" / "service-worker" / "worker" / "paint-worklet" / "audio-worklet" / "worklet",
  Extensible
}
;+
script.RealmType = "window" / "dedicated-worker" / "shared-worker" / "service-worker" / "worker" / "paint-worklet" / "audio-worklet" / "worklet"
;+
script.RemoteReference = script.SharedReference / script.RemoteObjectReference
;+
script.SharedReference = { sharedId: script.SharedId, ? handle: script.Handle, Extensible }
;+
script.RemoteObjectReference = { handle: script.Handle, ? sharedId: script.SharedId, Extensible }
;+
script.RemoteValue = script.PrimitiveProtocolValue / script.ListRemoteValue / script.MappingRemoteValue / script.RegExpRemoteValue /
  script.DateRemoteValue / script.OpaqueRemoteValue / script.NodeRemoteValue / script.WindowProxyRemoteValue
;+
script.Held = ( ? handle: script.Handle, ? internalId: script.InternalId, Extensible )
;+ five rules of the draft in one
script.ListRemoteValue = { type: "array" / "set" / "nodelist" / "htmlcollection", ? value: [*script.RemoteValue], script.Held }
;+ two rules of the draft in one
script.MappingRemoteValue = { type: "object" / "map", ? value: [*[(script.RemoteValue / text), script.RemoteValue]], script.Held }
;+
script.RegExpRemoteValue = { type: "regexp", value: script.RegExpValue, script.Held }
;+
script.DateRemoteValue = { type: "date", value: text, script.Held }
;+ ten rules of the draft in one
script.OpaqueRemoteValue = {
  type: "symbol" / "function" / "weakmap" / "weakset" / "generator" / "error" / "proxy" / "promise" / "typedarray" / "arraybuffer",
  script.Held
}
;+
script.NodeRemoteValue = { type: "node", ? sharedId: script.SharedId, ? value: script.NodeProperties, script.Held }
;+ attributes: further members of one type other than any
script.NodeProperties = {
  nodeType: js-uint,
  childNodeCount: js-uint,
  ? attributes: { *text => text },
  ? children: [*script.NodeRemoteValue],
  ? localName: text,
  ? mode: "open" / "closed",
  ? namespaceURI: text / null,
  ? nodeValue: text,
  ? shadowRoot: script.NodeRemoteValue / null,
  Extensible
}
;+
script.WindowProxyRemoteValue = { type: "window", value: { context: browsingContext.BrowsingContext, Extensible }, script.Held }
;+
script.ResultOwnership = "root" / "none"
;+
script.SerializationOptions = {
  ? maxDomDepth: (js-uint / null) .default 0,
  ? maxObjectDepth: (js-uint / null) .default null,
  ? includeShadowTree: ("none" / "open" / "all") .default "none",
  Extensible
}
;+
script.SharedId = text
;+
script.StackFrame = { columnNumber: js-uint, functionName: text, lineNumber: js-uint, url: text, Extensible }
;+
script.StackTrace = { callFrames: [*script.StackFrame], Extensible }
;+
script.Source = { realm: script.Realm, ? context: browsingContext.BrowsingContext, ? userContext: browser.UserContext, Extensible }
;+
script.AddPreloadScript = ( method: "script.addPreloadScript", params: script.AddPreloadScriptParameters )
;+
script.AddPreloadScriptParameters = {
  functionDeclaration: text,
  ? arguments: [*script.ChannelValue],
  ? contexts: [+browsingContext.BrowsingContext],
  ? userContexts: [+browser.UserContext],
  ? sandbox: text,
  Extensible
}
;+
script.AddPreloadScriptResult = { script: script.PreloadScript, Extensible }
;+
script.Disown = ( method: "script.disown", params: script.DisownParameters )
;+
script.DisownParameters = { handles: [*script.Handle], target: script.Target, Extensible }
;+
script.CallFunction = ( method: "script.callFunction", params: script.CallFunctionParameters )
;+
script.CallFunctionParameters = {
  functionDeclaration: text,
  awaitPromise: bool,
  target: script.Target,
  ? arguments: [*script.LocalValue],
  ? resultOwnership: script.ResultOwnership,
  ? serializationOptions: script.SerializationOptions,
  ? this: script.LocalValue,
  ? userActivation: bool .default false,
  Extensible
}
;+
script.Evaluate = ( method: "script.evaluate", params: script.EvaluateParameters )
;+
script.EvaluateParameters = {
  expression: text,
  target: script.Target,
  awaitPromise: bool,
  ? resultOwnership: script.ResultOwnership,
  ? serializationOptions: script.SerializationOptions,
  ? userActivation: bool .default false,
  Extensible
}
;+
script.GetRealms = ( method: "script.getRealms", params: script.GetRealmsParameters )
;+
script.GetRealmsParameters = { ? context: browsingContext.BrowsingContext, ? type: script.RealmType, Extensible }
;+
script.GetRealmsResult = { realms: [*script.RealmInfo], Extensible }
;+
script.RemovePreloadScript = ( method: "script.removePreloadScript", params: { script: script.PreloadScript, Extensible } )
;+
script.Message = ( method: "script.message", params: { channel: script.Channel, data: script.RemoteValue, source: script.Source, Extensible } )
;+
script.RealmCreated = ( method: "script.realmCreated", params: script.RealmInfo )
;+
script.RealmDestroyed = ( method: "script.realmDestroyed", params: { realm: script.Realm, Extensible } )

; ---- storage

;+
StorageCommand = ( storage.DeleteCookies // storage.GetCookies // storage.SetCookie )
;+
storage.PartitionKey = { ? userContext: text, ? sourceOrigin: text, Extensible }
;+
storage.CookieFilter = {
  ? name: text,
  ? value: network.BytesValue,
  ? domain: text,
  ? path: text,
  ? size: js-uint,
  ? httpOnly: bool,
  ? secure: bool,
  ? sameSite: network.SameSite,
  ? expiry: js-uint,
  Extensible
}
;+
storage.PartitionDescriptor = storage.BrowsingContextPartitionDescriptor / storage.StorageKeyPartitionDescriptor
;+
storage.BrowsingContextPartitionDescriptor = { type: "context", context: browsingContext.BrowsingContext, Extensible }
;+
storage.StorageKeyPartitionDescriptor = { type: "storageKey", ? userContext: text, ? sourceOrigin: text, Extensible }
;+
storage.GetCookies = ( method: "storage.getCookies", params: storage.GetCookiesParameters )
;+
storage.GetCookiesParameters = { ? filter: storage.CookieFilter, ? partition: storage.PartitionDescriptor, Extensible }
;+
storage.GetCookiesResult = { cookies: [*network.Cookie], partitionKey: storage.PartitionKey, Extensible }
;+
storage.SetCookie = ( method: "storage.setCookie", params: storage.SetCookieParameters )
;+
storage.SetCookieParameters = { cookie: storage.PartialCookie, ? partition: storage.PartitionDescriptor, Extensible }
;+
storage.PartialCookie = {
  name: text,
  value: network.BytesValue,
  domain: text,
  ? path: text,
  ? httpOnly: bool,
  ? secure: bool,
  ? sameSite: network.SameSite,
  ? expiry: js-uint,
  Extensible
}
;+
storage.SetCookieResult = { partitionKey: storage.PartitionKey, Extensible }
;+
storage.DeleteCookies = ( method: "storage.deleteCookies", params: storage.DeleteCookiesParameters )
;+
storage.DeleteCookiesParameters = { ? filter: storage.CookieFilter, ? partition: storage.PartitionDescriptor, Extensible }
;+
storage.DeleteCookiesResult = { partitionKey: storage.PartitionKey, Extensible }

; ---- webExtension

;+
WebExtensionCommand = ( webExtension.Install // webExtension.Uninstall )
;+
webExtension.Extension = text
;+
webExtension.Install = ( method: "webExtension.install", params: webExtension.InstallParameters )
;+
webExtension.InstallParameters = { extensionData: webExtension.ExtensionData, Extensible }
;+
webExtension.ExtensionData = webExtension.ExtensionArchivePath / webExtension.ExtensionBase64Encoded / webExtension.ExtensionPath
;+
webExtension.ExtensionPath = { type: "path", path: text, Extensible }
;+
webExtension.ExtensionArchivePath = { type: "archivePath", path: text, Extensible }
;+
webExtension.ExtensionBase64Encoded = { type: "base64", value: text, Extensible }
;+
webExtension.InstallResult = { extension: webExtension.Extension, Extensible }
;+
webExtension.Uninstall = ( method: "webExtension.uninstall", params: { extension: webExtension.Extension, Extensible } )
"#;
